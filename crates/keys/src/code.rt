// Codes as keys: the numbers 0 to 65,535, spelled by two bytes, the higher first.
ghost use Rattle.std.specs.Prelude.{◌≡◌, ℕ, nat_eq};
ghost use Rattle.keys.specs.Codes.{code_spelling, code_read};
ghost use Rattle.std.proofs.Common.{rules};

use super::denial::Denial;
use super::front::write_front;
use super::key::Key;

#[derive(Clone, Copy, PartialEq, Eq, Default, Debug)]
pub struct Code {
    pub number: u16,
}

impl Key for Code {
    ghost Value = { ℕ };

    ghost equal = { nat_eq };

    ghost value = { λ k. k.number };

    ghost spelling = { λ k. code_spelling k.number };

    ghost reading = { code_read };

    const LETTER: u8 = b'C';

    ghost LETTER = { 67 };

    const LONGEST: usize = 2;

    ghost LONGEST = { 2 };

    ghost alike = { Prim.search rules };

    ghost decides = { Prim.search rules };

    ghost restores = { Prim.search rules };

    ghost bounded = { Prim.search rules };

    fn read(spelled: &[u8]) -> Result<Code, Denial> {
        let [high, low] = spelled else {
            return Err(Denial::Layout);
        };
        Ok(Code {
            number: u16::from_be_bytes([*high, *low]),
        })
    }

    fn write(&self, buffer: &mut [u8]) -> Result<usize, Denial> {
        write_front(&self.number.to_be_bytes(), buffer)
    }
}
