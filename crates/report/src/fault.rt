// The fault line.
ghost use Rattle.std.specs.Prelude.{◌≡◌, ◌+◌, ◌++◌, length};
ghost use Rattle.report.specs.Faults.{word_of, fault_text};
ghost use Rattle.report.specs.Printing.{printed, Short};
ghost use Rattle.report.specs.Texts.{text_of, Fits, Kept};

use super::text::{Text, check_room};
use keys::Denial;
use logs::{Fault, Log};

// The word of a log.
fn word_of(log: Log) -> &'static [u8]
    ensures { result.now ≡ word_of log }
{
    match log {
        Log::Page => b"page",
        Log::Plan => b"plan",
    }
}

impl Text<'_> {
    // Puts the fault line behind the text.
    fn push_fault(&mut self, fault: Fault)
        requires { Fits self.old (fault_text fault) }
        ensures text { text_of self.new ≡ text_of self.old ++ (fault_text fault) }
        ensures len { self.new.len ≡ self.old.len + length (fault_text fault) }
        ensures kept { Kept self.old self.new }
    {
        self.push_item(b"fault", u64::from(fault.denial.number()), b' ');
        self.push_item(word_of(fault.log), fault.at as u64, b'\n');
    }
}

// Writes the fault line to the buffer's front, and gives its length.
pub fn write_fault(fault: Fault, buffer: &mut [u8]) -> Result<usize, Denial>
    ensures text { printed (fault_text fault) buffer.old ≡ (result, buffer.new) }
    ensures short { Short (length buffer.old) result }
{
    check_room(buffer)?;
    let mut text = Text::new(buffer);
    text.push_fault(fault);
    Ok(text.len())
}
