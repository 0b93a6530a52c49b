// Names as keys: 1 to 16 bytes of letters, digits and hyphens, where capitals mean small letters.
ghost use Rattle.std.specs.Prelude.{◌≡◌, ℕ, List, take, ◌==◌};
ghost use Rattle.std.specs.Cmp.Rules.{comparing};
ghost use Rattle.std.specs.Ordering.{on};
ghost use Rattle.std.specs.Int.{is_in_range};
ghost use Rattle.std.specs.Str.{bytes_eq};
ghost use Rattle.keys.specs.Names.{in_alphabet, name_length, name_byte, name_of, name_read, spells_name};
ghost use Rattle.std.proofs.lemmas.Slice.Eq.{bytes_eq-Decides};
ghost use Rattle.keys.specs.Laws.{reads-name};
ghost use Rattle.std.proofs.Common.{rules};

use super::denial::Denial;
use super::front::write_front;
use super::key::Key;

// A record means a name whatever it holds: `meant_bytes` and `meant_len` say which.
#[derive(Clone, Copy, Default, Debug)]
pub struct Name {
    pub bytes: [u8; 16],
    pub len: u8,
}

impl Name {
    // What each byte of the record means; the first `meant_len` are the record's name.
    fn meant_bytes(&self) -> [u8; 16]
        ensures { take (name_length self.now.len) result ≡ name_of self.now }
    {
        let mut bytes = self.bytes;
        for byte in bytes.iter_mut() {
            *byte = meant_byte(*byte);
        }
        bytes
    }

    // The length of the record's name.
    fn meant_len(&self) -> usize
        ensures { result ≡ name_length self.now.len }
    {
        usize::from(self.len.clamp(1, 16))
    }
}

// Whether names have this byte, or the capital of one that they have.
fn in_alphabet(b: u8) -> bool
    ensures { result ≡ in_alphabet b }
{
    b.is_ascii_alphanumeric() || b == b'-'
}

// What a record's byte means: a hyphen where it is outside the alphabet.
fn meant_byte(b: u8) -> u8
    ensures { result ≡ name_byte b }
{
    if in_alphabet(b) {
        b.to_ascii_lowercase()
    } else {
        b'-'
    }
}

// Whether two records' bytes mean the same.
fn same_byte(a: u8, b: u8) -> bool
    ensures { result ≡ (name_byte a == name_byte b) }
{
    meant_byte(a) == meant_byte(b)
}

// Whether a spelling may have this length.
fn fits_name(len: usize) -> bool
    ensures { result ≡ is_in_range 1 16 len }
{
    (1..=Name::LONGEST).contains(&len)
}

// Whether bytes spell a name.
fn spells_name(spelled: &[u8]) -> bool
    ensures { result ≡ spells_name spelled.now }
{
    fits_name(spelled.len()) && spelled.iter().all(|b| in_alphabet(*b))
}

// Records are equal when they mean the same name.
impl PartialEq for Name {
    ghost eq = { on name_of bytes_eq };

    ghost laws = { Prim.search (comparing, rules) };

    // Lengths first, and then no further than the first bytes that differ.
    fn eq(&self, other: &Name) -> bool {
        let len = self.meant_len();
        if len != other.meant_len() {
            return false;
        }
        let mut pairs = self.bytes[..len].iter().zip(&other.bytes[..len]);
        pairs.all(|(mine, theirs)| same_byte(*mine, *theirs))
    }
}

impl Eq for Name {
    ghost laws = { Prim.search (comparing, rules) };
}

impl Key for Name {
    ghost Value = { List ℕ };

    ghost equal = { bytes_eq };

    ghost value = { name_of };

    ghost spelling = { name_of };

    ghost reading = { name_read };

    const LETTER: u8 = b'N';

    ghost LETTER = { 78 };

    const LONGEST: usize = 16;

    ghost LONGEST = { 16 };

    ghost alike = { Prim.search rules };

    ghost decides = { bytes_eq-Decides };

    ghost restores = { reads-name };

    ghost bounded = { Prim.search rules };

    fn read(spelled: &[u8]) -> Result<Name, Denial> {
        if !spells_name(spelled) {
            return Err(Denial::Layout);
        }
        let mut bytes = [0; 16];
        for (at, letter) in spelled.iter().enumerate() {
            bytes[at] = letter.to_ascii_lowercase();
        }
        Ok(Name {
            bytes,
            len: spelled.len() as u8,
        })
    }

    fn write(&self, buffer: &mut [u8]) -> Result<usize, Denial> {
        let meant = self.meant_bytes();
        write_front(&meant[..self.meant_len()], buffer)
    }
}
