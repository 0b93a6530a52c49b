// The script: what each of its lines says.
ghost use Rattle.std.specs.Prelude.{◌≤◌, IfOk};
ghost use Rattle.script.specs.Said.{letter_of, word_of, IsReadBy};

use super::words::{Fault, read_hex, read_number};
use std::alloc::{AllocError, Global};
use std::str::FromStr;

// The two kinds of key.
#[derive(Clone, Copy)]
pub enum Kind {
    Codes,
    Names,
}

// A kind is read from its letter.
impl FromStr for Kind {
    type Err = Fault;

    ghost from_str_gives = { IsReadBy letter_of };

    fn from_str(letter: &str) -> Result<Kind, Fault> {
        match letter {
            "C" => Ok(Kind::Codes),
            "N" => Ok(Kind::Names),
            _ => Err(Fault::NoCall),
        }
    }
}

// The two makes of line.
#[derive(Clone, Copy)]
pub enum Make {
    Row,
    Chain,
}

// A make is read from its word.
impl FromStr for Make {
    type Err = Fault;

    ghost from_str_gives = { IsReadBy word_of };

    fn from_str(word: &str) -> Result<Make, Fault> {
        match word {
            "row" => Ok(Make::Row),
            "chain" => Ok(Make::Chain),
            _ => Err(Fault::NoCall),
        }
    }
}

// A line to open a bench on: its make, and how many cells it gets.
#[derive(Clone, Copy)]
pub struct Plan {
    pub make: Make,
    pub cells: usize,
}

// What an opening line says.
#[derive(Clone, Copy)]
pub enum Term {
    Keys(Kind),
    House(Plan),
    Rival(Plan),
}

// A call of a bench, with its key by the spelling.
#[derive(Drop)]
pub enum Call {
    Load(Vec<u8>),
    Start,
    Lookup(Vec<u8>, usize),
    Add(Vec<u8>, usize),
    Remove(Vec<u8>),
    Exchange(usize),
    Close,
}

// What a line says.
#[derive(Drop)]
pub enum Entry {
    Opening(Term),
    Calling(Call),
}

// A make and a number of cells, at most 300.
fn read_plan(make: &str, cells: &str) -> Result<Plan, Fault>
    ensures { IfOk result (λ plan. plan.cells ≤ 300) }
{
    let make = make.parse()?;
    match read_number(cells) {
        Some(cells) if cells <= 300 => Ok(Plan { make, cells }),
        _ => Err(Fault::NoCall),
    }
}

// A place or a goal.
fn read_place(word: &str) -> Result<usize, Fault> {
    read_number(word).ok_or(Fault::NoCall)
}

// The words of an opening line.
fn read_term(words: &[&str]) -> Result<Term, Fault> {
    match words {
        ["kind", letter] => Ok(Term::Keys(letter.parse()?)),
        ["house", make, cells] => Ok(Term::House(read_plan(make, cells)?)),
        ["rival", make, cells] => Ok(Term::Rival(read_plan(make, cells)?)),
        _ => Err(Fault::NoCall),
    }
}

// The words of a call.
fn read_call(heap: Global, words: &[&str]) -> Result<Call, Fault> {
    match words {
        ["load", key] => Ok(Call::Load(read_hex(heap, key)?)),
        ["start"] => Ok(Call::Start),
        ["lookup", key, goal] => Ok(Call::Lookup(read_hex(heap, key)?, read_place(goal)?)),
        ["add", key, goal] => Ok(Call::Add(read_hex(heap, key)?, read_place(goal)?)),
        ["remove", key] => Ok(Call::Remove(read_hex(heap, key)?)),
        ["exchange", place] => Ok(Call::Exchange(read_place(place)?)),
        ["close"] => Ok(Call::Close),
        _ => Err(Fault::NoCall),
    }
}

// What a line says, or none where it is no opening line and no call.
pub fn read_entry(heap: Global, line: &str) -> Result<Option<Entry>, AllocError> {
    let words: Vec<&str> = line.split(' ').collect(heap)?;
    if let Ok(term) = read_term(&words) {
        return Ok(Some(Entry::Opening(term)));
    }
    match read_call(heap, &words) {
        Ok(call) => Ok(Some(Entry::Calling(call))),
        Err(Fault::NoCall) => Ok(None),
        Err(Fault::Memory) => Err(AllocError),
    }
}
