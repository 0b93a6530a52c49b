// Page logs: first keys, then requests.
ghost use Rattle.std.specs.Prelude.{◌≡◌, ◌+◌, ◌^◌, ◌<◌, false, length, IfOk, ◌==◌, nat_lt};
ghost use Rattle.keys.specs.Spelling.{meant};
ghost use Rattle.logs.specs.Framing.{versioned, lettered_in, read_next, valued, gained};
ghost use Rattle.logs.specs.Cursors.{left_of, passed_of};
ghost use Rattle.logs.specs.Pages.{entry_as, spelled_entry, asked, request_of, entry_of, request_with, record_with, page_entry, requested_by};

use super::framing::{Cursor, behind_letter, behind_version};
use keys::{Denial, Key};

// What a page's log asks for, with a key, or with the spelling of one, a part of the log.
#[derive(Clone, Copy, PartialEq, Eq, Debug)]
pub enum Request<T> {
    Lookup(T),
    Add(T),
    Remove(T),
}

impl<'a> Request<&'a [u8]> {
    // The spelling of the key.
    pub fn spelling(self) -> &'a [u8]
        ensures { result.now ≡ (request_of self.entry).spelling }
    {
        match self {
            Request::Lookup(spelling) | Request::Add(spelling) | Request::Remove(spelling) =>
                spelling,
        }
    }
}

impl<T> Request<T> {
    // The same request of another key.
    pub fn with_key<U>(&self, key: U) -> Request<U>
        ensures { result ≡ request_with self.now key }
    {
        match self {
            Request::Lookup(_) => Request::Lookup(key),
            Request::Add(_) => Request::Add(key),
            Request::Remove(_) => Request::Remove(key),
        }
    }
}

// A record of a page log: a key that the page begins with, or a request.
#[derive(Clone, Copy, PartialEq, Eq, Debug)]
pub enum PageRecord<T> {
    First(T),
    Request(Request<T>),
}

impl<'a> PageRecord<&'a [u8]> {
    // The spelling of the key.
    pub fn spelling(self) -> &'a [u8]
        ensures { result.now ≡ (entry_of self.entry).spelling }
    {
        match self {
            PageRecord::First(spelling) => spelling,
            PageRecord::Request(request) => request.spelling(),
        }
    }
}

impl<T> PageRecord<T> {
    // The same record of another key.
    pub fn with_key<U>(&self, key: U) -> PageRecord<U>
        ensures { result ≡ record_with self.now key }
    {
        match self {
            PageRecord::First(_) => PageRecord::First(key),
            PageRecord::Request(request) => PageRecord::Request(request.with_key(key)),
        }
    }
}

// The record of a letter and a spelling, where a first key does not follow a request.
fn record_by(letter: u8, spelling: &[u8], requested: bool) -> Result<PageRecord<&[u8]>, Denial>
    ensures { meant entry_of result ≡ entry_as (asked requested letter) spelling.now }
{
    match letter {
        b'F' if !requested => Ok(PageRecord::First(spelling)),
        b'L' => Ok(PageRecord::Request(Request::Lookup(spelling))),
        b'A' => Ok(PageRecord::Request(Request::Add(spelling))),
        b'R' => Ok(PageRecord::Request(Request::Remove(spelling))),
        _ => Err(Denial::Layout),
    }
}

// The record of a letter and a spelling that the kind of key has a value for.
fn spelled_record<K: Key>(
    letter: u8,
    spelling: &[u8],
    requested: bool,
) -> Result<PageRecord<&[u8]>, Denial>
    ensures { meant entry_of result ≡ spelled_entry K.Key.reading requested letter spelling.now }
{
    if spelling.len() > K::LONGEST {
        return Err(Denial::Layout);
    }
    let _key = K::read(spelling)?;
    record_by(letter, spelling, requested)
}

// The record of its bytes.
fn page_record<K: Key>(body: &[u8], requested: bool) -> Result<PageRecord<&[u8]>, Denial>
    ensures { meant entry_of result ≡ page_entry K.Key.reading requested body.now }
{
    match body {
        [] => Err(Denial::Layout),
        [letter, spelling @ ..] => spelled_record::<K>(*letter, spelling, requested),
    }
}

// A reader of a page log: a place in it, and whether a request was read.
#[derive(Drop)]
pub struct PageReader<'a> {
    cursor: Cursor<'a>,
    // In which part of the page the reader stands; no value goes with it.
    requested: bool,
}

impl<'a> PageReader<'a> {
    // A reader at the first record of a log for this kind of key.
    pub fn open<K: Key>(log: &'a [u8]) -> Result<PageReader<'a>, Denial>
        ensures left { meant (λ reader. left_of reader.cursor) result ≡ lettered_in K.Key.LETTER (versioned log.now) }
        ensures fresh { IfOk result (λ reader. (reader.requested ≡ false) × (passed_of reader.cursor ≡ 0)) }
    {
        let rest = behind_version(log)?;
        let rest = behind_letter(rest, K::LETTER)?;
        Ok(PageReader {
            cursor: Cursor::at(rest),
            requested: false,
        })
    }

    // The next record, or none at the end. A record that is denied is not passed.
    pub fn next<K: Key>(&mut self) -> Result<Option<PageRecord<&'a [u8]>>, Denial>
        ensures read { read_next (page_entry K.Key.reading self.old.requested) (left_of self.old.cursor) ≡ (valued entry_of result, left_of self.new.cursor) }
        ensures requested { self.new.requested ≡ requested_by self.old.requested (valued entry_of result) }
        ensures passed { passed_of self.new.cursor ≡ passed_of self.old.cursor + gained result }
    {
        let requested = self.requested;
        let next = self
            .cursor
            .next_by(|body| page_record::<K>(body, requested))?;
        self.requested |= matches!(next, Some(PageRecord::Request(_)));
        Ok(next)
    }

    // Whether no byte is left.
    pub fn is_done(&self) -> bool
        ensures { result ≡ (length (left_of self.now.cursor) == 0) }
    {
        self.cursor.is_done()
    }

    // How many records were passed.
    pub fn passed(&self) -> usize
        ensures value { result ≡ passed_of self.now.cursor }
        ensures bound { result + 1 < 2 ^ 64 }
    {
        self.cursor.passed()
    }
}
