// Texts written to the front of a lent buffer. They are not made by `write!`, which promises only what holds where it succeeds: here every
// text has to be whole, and no heap is used.
ghost use Rattle.std.specs.Prelude.{◌≡◌, ◌+◌, ◌%◌, ◌<◌, ◌≤◌, [], ◌∷◌, ◌++◌, length, cond, decimal, Ok, Err, nat_lt};
ghost use Rattle.keys.specs.declared.denial.Denial.TheVariants.{NoRoom};
ghost use Rattle.report.specs.Lines.{item};
ghost use Rattle.report.specs.Printing.{room};
ghost use Rattle.report.specs.Texts.{text_of, Fits, Kept};

use keys::Denial;

// The shortest buffer that is written to.
const ROOM: usize = 128;

// Denies a buffer that is too short.
pub(crate) fn check_room(buffer: &[u8]) -> Result<(), Denial>
    ensures { result ≡ cond (nat_lt (length buffer.now) room) (Err NoRoom) (Ok tt) }
{
    if buffer.len() < ROOM {
        return Err(Denial::NoRoom);
    }
    Ok(())
}

// The first `len` bytes of the buffer are written.
#[derive(Drop)]
pub(crate) struct Text<'a> {
    buffer: &'a mut [u8],
    len: usize,
}

impl<'a> Text<'a> {
    // A text of no bytes.
    pub(crate) fn new(buffer: &'a mut [u8]) -> Text<'a>
        ensures len { result.len ≡ 0 }
        ensures buffer { result.buffer.now ≡ buffer.old }
        ensures same_buffer { result.buffer.ghost_name ≡ buffer.entry.ghost_name }
    {
        Text { buffer, len: 0 }
    }

    // How many bytes are written.
    pub(crate) fn len(&self) -> usize
        ensures { result ≡ self.now.len }
    {
        self.len
    }

    // Puts bytes behind the text.
    pub(crate) fn push(&mut self, more: &[u8])
        requires { Fits self.old more.now }
        ensures text { text_of self.new ≡ text_of self.old ++ more.now }
        ensures len { self.new.len ≡ self.old.len + length more.now }
        ensures kept { Kept self.old self.new }
    {
        let end = self.len + more.len();
        self.buffer[self.len..end].copy_from_slice(more);
        self.len = end;
    }

    // Puts the last digit of a number behind the text.
    fn push_digit(&mut self, number: u64)
        requires { self.old.len < length self.old.buffer.now }
        ensures text { text_of self.new ≡ text_of self.old ++ ((48 + number % 10) ∷ []) }
        ensures len { self.new.len ≡ self.old.len + 1 }
        ensures kept { Kept self.old self.new }
    {
        self.push(&[b'0' + (number % 10) as u8]);
    }

    // Puts a number's decimal behind the text.
    #[tactic(auto, using(crate::proofs::Digits::digits))]
    fn push_decimal(&mut self, number: u64)
        requires { Fits self.old (decimal number) }
        ensures text { text_of self.new ≡ text_of self.old ++ (decimal number) }
        ensures len { self.new.len ≡ self.old.len + length (decimal number) }
        ensures kept { Kept self.old self.new }
    {
        if number < 10 {
            return self.push_digit(number);
        }
        self.push_decimal(number / 10);
        self.push_digit(number);
    }

    // Puts a word, a space, a number's decimal and a last byte behind the text.
    #[tactic(auto, using(crate::proofs::Items::length_item), unfolding(crate::specs::Lines::item))]
    pub(crate) fn push_item(&mut self, word: &[u8], number: u64, last: u8)
        requires { Fits self.old (item word.now (decimal number) last) }
        ensures text { text_of self.new ≡ text_of self.old ++ (item word.now (decimal number) last) }
        ensures len { self.new.len ≡ self.old.len + length (item word.now (decimal number) last) }
        ensures kept { Kept self.old self.new }
    {
        self.push(word);
        self.push(b" ");
        self.push_decimal(number);
        self.push(&[last]);
    }
}
