// Texts at the front of a caller's buffer.
ghost use Rattle.std.specs.Prelude.{◌≡◌};
ghost use Rattle.keys.specs.Spelling.{written};

use super::denial::Denial;

// Copies a text to the buffer's front, and gives its length.
pub(crate) fn write_front(text: &[u8], buffer: &mut [u8]) -> Result<usize, Denial>
    ensures { written text.now buffer.old ≡ (result, buffer.new) }
{
    if buffer.len() < text.len() {
        return Err(Denial::NoRoom);
    }
    buffer[..text.len()].copy_from_slice(text);
    Ok(text.len())
}
