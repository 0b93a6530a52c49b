// Plan logs: moves of a plan, each with a place.
ghost use Rattle.std.specs.Prelude.{◌≡◌, ◌+◌, ◌^◌, ◌<◌, length, IfOk, ◌==◌};
ghost use Rattle.keys.specs.Spelling.{meant};
ghost use Rattle.logs.specs.Framing.{versioned, read_next, gained};
ghost use Rattle.logs.specs.Cursors.{left_of, passed_of};
ghost use Rattle.logs.specs.Plans.{move_by, plan_move};

use super::framing::{Cursor, behind_version};
use keys::Denial;

// A record of a plan log: an exchange at a place, or a goal.
#[derive(Clone, Copy, PartialEq, Eq, Debug)]
pub enum Move {
    Exchange(u16),
    Goal(u16),
}

// The move of a letter and a place.
fn move_by(letter: u8, place: u16) -> Result<Move, Denial>
    ensures { result ≡ move_by letter place }
{
    match letter {
        b'X' => Ok(Move::Exchange(place)),
        b'G' => Ok(Move::Goal(place)),
        _ => Err(Denial::Layout),
    }
}

// The move of a record's bytes.
fn plan_move(body: &[u8]) -> Result<Move, Denial>
    ensures { result ≡ plan_move body.now }
{
    let [letter, high, low] = body else {
        return Err(Denial::Layout);
    };
    move_by(*letter, u16::from_be_bytes([*high, *low]))
}

// A reader of a plan log: a place in it. `is_done` and `passed` stand on both readers: a trait for four lines would need a ghost member,
// two impls and an import wherever they are asked.
#[derive(Drop)]
pub struct PlanReader<'a> {
    cursor: Cursor<'a>,
}

impl<'a> PlanReader<'a> {
    // A reader at the first record of a log.
    pub fn open(log: &'a [u8]) -> Result<PlanReader<'a>, Denial>
        ensures left { meant (λ reader. left_of reader.cursor) result ≡ versioned log.now }
        ensures fresh { IfOk result (λ reader. passed_of reader.cursor ≡ 0) }
    {
        let rest = behind_version(log)?;
        Ok(PlanReader {
            cursor: Cursor::at(rest),
        })
    }

    // The next move, or none at the end. A record that is denied is not passed.
    pub fn next(&mut self) -> Result<Option<Move>, Denial>
        ensures read { read_next plan_move (left_of self.old.cursor) ≡ (result, left_of self.new.cursor) }
        ensures passed { passed_of self.new.cursor ≡ passed_of self.old.cursor + gained result }
    {
        self.cursor.next_by(plan_move)
    }

    // Whether no byte is left.
    pub fn is_done(&self) -> bool
        ensures { result ≡ (length (left_of self.now.cursor) == 0) }
    {
        self.cursor.is_done()
    }

    // How many records were passed.
    pub fn passed(&self) -> usize
        ensures value { result ≡ passed_of self.now.cursor }
        ensures bound { result + 1 < 2 ^ 64 }
    {
        self.cursor.passed()
    }
}
