// A kind of key.
ghost use Rattle.std.specs.Prelude.{◌≡◌, ℕ, ◌<◌, Bool, List, length, Some, None, Decides, Option};
ghost use Rattle.std.specs.Cmp.{IsEquivalence};
ghost use Rattle.std.specs.Ordering.{on};
ghost use Rattle.keys.specs.Spelling.{meant, read_as, written};

use super::denial::Denial;

// A kind of key gives each key a value and a spelling, and each spelling a value or none.
pub trait Key: Copy + Eq {
    // What keys of this kind mean.
    ghost Value: { Type 0 };

    // The test by which two values are told apart.
    ghost equal: { Value → Value → Bool };

    // What a key means.
    ghost value: { Self → Value };

    // The bytes by which a key is written.
    ghost spelling: { Self → List ℕ };

    // The value of a spelling, or none.
    ghost reading: { List ℕ → Option Value };

    // The letter of the kind.
    const LETTER: u8;

    ghost LETTER: { ℕ };

    // The length of the longest spelling.
    const LONGEST: usize;

    ghost LONGEST: { ℕ };

    // The key that a spelling means.
    fn read(spelled: &[u8]) -> Result<Self, Denial>
        ensures { meant value result ≡ read_as (reading spelled.now) };

    // Writes the key's spelling to the buffer's front, and gives its length.
    fn write(&self, buffer: &mut [u8]) -> Result<usize, Denial>
        ensures { written (spelling self.now) buffer.old ≡ (result, buffer.new) };

    // Two keys are equal when their values are.
    ghost alike: { (a b : Self) → Self.eq a b ≡ equal (value a) (value b) };

    // The test is true exactly at equal values.
    ghost decides: { (v w : Value) → Decides (equal v w) (v ≡ w) };

    // A key's spelling is read as its value.
    ghost restores: { (k : Self) → reading (spelling k) ≡ Some (value k) };

    // No longer spelling has a value.
    ghost bounded: { (s : List ℕ) → LONGEST < length s → reading s ≡ None };
}

// Equality is an equivalence, for every kind of key. It only carries that theorem.
pub fn same_is_equivalence<K: Key>()
    ensures { IsEquivalence (on K.Key.value K.Key.equal) }
{}
