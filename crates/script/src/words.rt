// Words of the script: spellings in hex, and decimal numbers.
ghost use Rattle.std.specs.Prelude.{◌≡◌, ◌-◌, ◌^◌, min, vec_items, Decides};
ghost use Rattle.std.specs.Option.{SomeIff};
ghost use Rattle.std.specs.Str.Parse.{IsNumeral, digits_value};
ghost use Rattle.script.specs.declared.words.Fault.TheVariants.{Memory};
ghost use Rattle.script.specs.Words.{hex_digit, hex_byte, spelling_read, ReadAs};

use std::alloc::{AllocError, AllocFailed, Global};
use std::num::IntErrorKind;

// Why a line was not read.
#[derive(Clone, Copy)]
pub enum Fault {
    NoCall,
    Memory,
}

impl From<AllocError> for Fault {
    ghost from_gives = { λ _ r. r ≡ Memory };

    fn from(_e: AllocError) -> Fault {
        Fault::Memory
    }
}

impl<T: Drop> From<AllocFailed<T>> for Fault {
    ghost from_gives = { λ _ r. r ≡ Memory };

    fn from(_e: AllocFailed<T>) -> Fault {
        Fault::Memory
    }
}

// The value of a hex digit.
fn hex_digit(digit: u8) -> Option<u8>
    ensures { result ≡ hex_digit digit }
{
    let value = char::from(digit).to_digit(16)?;
    Some(value as u8)
}

// The byte that two hex digits spell.
fn hex_byte(high: u8, low: u8) -> Option<u8>
    ensures { result ≡ hex_byte high low }
{
    let high = hex_digit(high)?;
    let low = hex_digit(low)?;
    Some(high * 16 + low)
}

// The bytes that a word spells, two digits each.
pub fn read_hex(heap: Global, word: &str) -> Result<Vec<u8>, Fault>
    ensures { ReadAs vec_items (spelling_read word.now) result }
{
    let (pairs, rest) = word.as_bytes().as_chunks::<2>();
    let mut spelling = Vec::new(heap);
    for [high, low] in pairs {
        let Some(byte) = hex_byte(*high, *low) else {
            return Err(Fault::NoCall);
        };
        spelling.push(byte)?;
    }
    if !rest.is_empty() || word.is_empty() {
        return Err(Fault::NoCall);
    }
    Ok(spelling)
}

// Whether a word is a decimal digit or more.
fn is_numeral(word: &str) -> bool
    ensures { Decides result (IsNumeral 10 word.now) }
{
    !word.is_empty() && word.as_bytes().iter().all(|byte| byte.is_ascii_digit())
}

// The number that a word of decimal digits means, or the largest `usize` where that is less.
pub fn read_number(word: &str) -> Option<usize>
    ensures { SomeIff result (IsNumeral 10 word.now) (min (digits_value 10 word.now) (2 ^ 64 - 1)) }
{
    // `parse` reads the same words, and those that a plus begins. It tells that a number is too large before it has seen all of the word, so
    // only then is the word looked at again.
    match word.parse() {
        Ok(number) => (!word.starts_with('+')).then_some(number),
        Err(error) if *error.kind() == IntErrorKind::PosOverflow && is_numeral(word) => {
            Some(usize::MAX)
        }
        Err(_) => None,
    }
}
