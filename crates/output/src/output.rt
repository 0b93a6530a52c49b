// The text that is printed for two logs.
ghost use Rattle.std.specs.Prelude.{◌≡◌, length};
ghost use Rattle.report.specs.Printing.{printed, Short};
ghost use Rattle.output.specs.Outputs.{output_text};

use super::judged::judge_sized;
use keys::Denial;
use report::{write_fault, write_report};

// Judges two logs and writes the report, with a best cost if there is one, or the fault line to the buffer's front, and gives the
// text's length.
pub fn write_output(
    page: &[u8],
    plan: &[u8],
    best: Option<u32>,
    buffer: &mut [u8],
) -> Result<usize, Denial>
    ensures text { printed (output_text page.now plan.now best) buffer.old ≡ (result, buffer.new) }
    ensures short { Short (length buffer.old) result }
{
    match judge_sized(page, plan) {
        Ok(ledger) => write_report(ledger, best, buffer),
        Err(fault) => write_fault(fault, buffer),
    }
}
