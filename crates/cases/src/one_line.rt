// Texts on one line.
use std::fmt;

// A text that is shown with `_` for each space and `;` for each byte 10.
#[derive(Drop)]
pub struct OneLine<'a>(pub &'a [u8]);

// The sign for a byte.
fn sign(byte: u8) -> char {
    match byte {
        b' ' => '_',
        b'\n' => ';',
        _ => char::from(byte),
    }
}

impl fmt::Display for OneLine<'_> {
    fn fmt<W: fmt::Write>(&self, f: &mut fmt::Formatter<W>) -> fmt::Result {
        for byte in self.0 {
            f.write_char(sign(*byte))?;
        }
        Ok(())
    }
}
