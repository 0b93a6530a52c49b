// A row: a line that keeps its keys in order in cells that its user provides.
#![tactic(auto)]

ghost use Rattle.std.specs.Prelude.{◌≡◌, ◌-◌, ◌≤◌, [], map, length, take, ◌==◌};
ghost use Rattle.lines.specs.Orders.{key_at, taken_out};
ghost use Rattle.lines.specs.Places.{place_of, Different, limit_for};

use keys::{Denial, Key};
use lines::{Line, is_place, limit_for, may_exchange};

// The first `count` cells hold the keys, which differ; what the other cells hold means nothing.
#[derive(Drop)]
pub struct Row<'a, K: Key> {
    cells: &'a mut [K],
    count: usize,
    ghost within: { count ≤ limit_for (length cells.now) },
    ghost differ: { Different K.Key.equal (map K.Key.value (take count cells.now)) },
}

impl<'a, K: Key> Row<'a, K> {
    ghost use Rattle.row.specs.Rows.{row_keys, limit_over, row_limit};

    // An empty row over the cells, whatever they hold.
    pub fn new(cells: &'a mut [K]) -> Row<'a, K>
        ensures keys { row_keys result ≡ [] }
        ensures limit { row_limit result ≡ limit_over cells.old }
    {
        Row { cells, count: 0 }
    }

    // The cells that hold the keys.
    fn keys(&self) -> &[K]
        ensures { result.now ≡ row_keys self.now }
    {
        &self.cells[..self.count]
    }
}

// The key at a place among keys.
#[tactic(auto, using(crate::proofs::Cells::got_key))]
fn pick<K: Key>(keys: &[K], place: usize) -> Result<K, Denial>
    ensures { result ≡ key_at place keys.now }
{
    let at = place.checked_sub(1).ok_or(Denial::OutOfRange)?;
    keys.get(at).copied().ok_or(Denial::OutOfRange)
}

// Where a key stands among keys.
fn search<K: Key>(keys: &[K], key: &K) -> Option<usize>
    ensures { result ≡ place_of K.Key.equal (K.Key.value key.now) (map K.Key.value keys.now) }
{
    let at = keys.iter().position(|other| key == other)?;
    Some(at + 1)
}

// Moves each of the first `count` keys that stands behind a place up by one, and the key at that place behind them.
#[tactic(auto, using(crate::proofs::Cells::rotated))]
fn close_up<K: Key>(cells: &mut [K], place: usize, count: usize)
    requires { (1 ≤ place) × ((place ≤ count) × (count ≤ length cells.old)) }
    ensures keys { take (count - 1) cells.new ≡ taken_out place (take count cells.old) }
    ensures len { length cells.new ≡ length cells.old }
{
    cells[place - 1..count].rotate_left(1);
}

impl<'a, K: Key> Line<K> for Row<'a, K> {
    ghost use Rattle.row.specs.Laws.{keys-within, limit-bounded};
    ghost use Rattle.row.specs.Rows.{row_keys, row_limit};

    ghost keys = { row_keys };

    ghost limit = { row_limit };

    ghost different = { λ s. s.differ };

    ghost within = { λ s. keys-within s.cells.now s.count s.within };

    ghost bounded = { λ s. limit-bounded s.cells.now };

    fn count(&self) -> usize {
        self.keys().len()
    }

    fn limit(&self) -> usize {
        limit_for(self.cells.len())
    }

    fn key_at(&self, place: usize) -> Result<K, Denial> {
        pick(self.keys(), place)
    }

    fn place_of(&self, key: &K) -> Option<usize> {
        search(self.keys(), key)
    }

    fn append(&mut self, key: K) -> Result<(), Denial> {
        if self.place_of(&key).is_some() {
            return Err(Denial::Present);
        }
        if self.is_full() {
            return Err(Denial::Full);
        }
        self.cells[self.count] = key;
        self.count += 1;
        Ok(())
    }

    fn take_out(&mut self, place: usize) -> Result<(), Denial> {
        if !is_place(place, self.count) {
            return Err(Denial::OutOfRange);
        }
        close_up(self.cells, place, self.count);
        self.count -= 1;
        Ok(())
    }

    fn exchange(&mut self, place: usize) -> Result<(), Denial> {
        if !may_exchange(place, self.count) {
            return Err(Denial::OutOfRange);
        }
        self.cells.swap(place - 1, place);
        Ok(())
    }
}
