// The bytes of a log: a header, and then records with their lengths.
ghost use Rattle.std.specs.Prelude.{◌≡◌, ◌+◌, ◌^◌, ◌<◌, length, ◌==◌};
ghost use Rattle.std.specs.Fn.{FnOnceReturnsAt};
ghost use Rattle.keys.specs.Spelling.{meant};
ghost use Rattle.logs.specs.Framing.{behind, versioned, lettered, framed, next_in, valued, gained, parts_of, FewerThan, ReadBy};

use keys::Denial;

// A record's bytes, and the bytes behind them.
#[derive(Clone, Copy)]
struct Frame<'a> {
    body: &'a [u8],
    rest: &'a [u8],
}

// What is left behind a first byte, which has to be the wanted one.
fn rest_behind(bytes: &[u8], wanted: u8, denial: Denial) -> Result<&[u8], Denial>
    ensures { meant (λ rest. rest.now) result ≡ behind wanted denial bytes.now }
{
    match bytes {
        [first, rest @ ..] if *first == wanted => Ok(rest),
        _ => Err(denial),
    }
}

// What is left behind the version byte.
pub(crate) fn behind_version(log: &[u8]) -> Result<&[u8], Denial>
    ensures { meant (λ rest. rest.now) result ≡ versioned log.now }
{
    rest_behind(log, 1, Denial::Version)
}

// What is left behind the letter of a kind of key.
pub(crate) fn behind_letter(bytes: &[u8], letter: u8) -> Result<&[u8], Denial>
    ensures { meant (λ rest. rest.now) result ≡ lettered letter bytes.now }
{
    rest_behind(bytes, letter, Denial::Letter)
}

// A record of this size and the bytes behind it.
fn cut(bytes: &[u8], size: usize) -> Result<Option<Frame<'_>>, Denial>
    ensures value { valued parts_of result ≡ framed size bytes.now }
    ensures fewer { FewerThan (length bytes.now + 1) result }
{
    let (body, rest) = bytes.split_at_checked(size).ok_or(Denial::CutOff)?;
    Ok(Some(Frame { body, rest }))
}

// The next record and the bytes behind it, or nothing at the end.
fn next_frame(bytes: &[u8]) -> Result<Option<Frame<'_>>, Denial>
    ensures value { valued parts_of result ≡ next_in bytes.now }
    ensures fewer { FewerThan (length bytes.now) result }
{
    match bytes {
        [] => Ok(None),
        [_] => Err(Denial::CutOff),
        [high, low, rest @ ..] => cut(rest, u16::from_be_bytes([*high, *low]).into()),
    }
}

// A place in a log: what is left of it, and how many records were passed. Each of these had a byte at least, so with the bytes left they
// are few, and the number of the next record fits too.
#[derive(Clone, Copy)]
pub(crate) struct Cursor<'a> {
    pub(crate) rest: &'a [u8],
    passed: usize,
    ghost few: { passed + length rest.now + 1 < 2 ^ 64 },
}

impl<'a> Cursor<'a> {
    ghost use Rattle.logs.specs.Cursors.{left_of, passed_of};

    // A cursor that has passed nothing.
    pub(crate) fn at(rest: &'a [u8]) -> Cursor<'a>
        ensures left { left_of result ≡ rest.now }
        ensures passed { passed_of result ≡ 0 }
    {
        Cursor { rest, passed: 0 }
    }

    // Whether no byte is left.
    pub(crate) fn is_done(&self) -> bool
        ensures { result ≡ (length (left_of self.now) == 0) }
    {
        self.rest.is_empty()
    }

    // How many records were passed.
    pub(crate) fn passed(&self) -> usize
        ensures value { result ≡ passed_of self.now }
        ensures bound { result + 1 < 2 ^ 64 }
    {
        self.passed
    }

    // Passes one record, behind which these bytes are left.
    fn pass(&mut self, rest: &'a [u8])
        requires { length rest.now < length (left_of self.old) }
        ensures left { left_of self.new ≡ rest.now }
        ensures passed { passed_of self.new ≡ passed_of self.old + 1 }
    {
        self.rest = rest;
        self.passed += 1;
    }

    // The next record, as a rule reads its bytes, or none at the end. A record that is denied is not passed.
    pub(crate) fn next_by<T, F: FnOnce(&'a [u8]) -> Result<T, Denial>>(
        &mut self,
        rule: F,
    ) -> Result<Option<T>, Denial>
        requires { F.IsAlwaysCallable rule }
        ensures read { ReadBy (FnOnceReturnsAt F.FnOnce rule) (left_of self.old) result (left_of self.new) }
        ensures passed { passed_of self.new ≡ passed_of self.old + gained result }
    {
        let Some(frame) = next_frame(self.rest)? else {
            return Ok(None);
        };
        let given = rule(frame.body)?;
        self.pass(frame.rest);
        Ok(Some(given))
    }
}
