// The report of a ledger.
ghost use Rattle.std.specs.Prelude.{◌≡◌, ◌+◌, ◌++◌, length, codes, decimal};
ghost use Rattle.reckoning.specs.Floor.{floor_of};
ghost use Rattle.bench.specs.Benches.{sums_of};
ghost use Rattle.report.specs.Lines.{line};
ghost use Rattle.report.specs.Printing.{printed, Short};
ghost use Rattle.report.specs.Reports.{twice_of, best_of, report_text};
ghost use Rattle.report.specs.Texts.{text_of, Fits, Kept};

use super::text::{Text, check_room};
use bench::Ledger;
use keys::Denial;

// Twice the rival cost, plus the paid exchanges, less the free exchanges and the requests.
fn twice_of(ledger: &Ledger) -> u32
    ensures { result ≡ twice_of (sums_of ledger.now) }
{
    2 * ledger.rival + ledger.paid - ledger.free - ledger.requests
}

// Half of the house cost and the requests, rounded up.
fn floor_of(ledger: &Ledger) -> u32
    ensures { result ≡ floor_of (sums_of ledger.now) }
{
    (ledger.house + ledger.requests).div_ceil(2)
}

impl Text<'_> {
    // Puts a line of a word and a number behind the text.
    fn push_line(&mut self, word: &[u8], number: u32)
        requires { Fits self.old (line word.now (decimal number)) }
        ensures text { text_of self.new ≡ text_of self.old ++ (line word.now (decimal number)) }
        ensures len { self.new.len ≡ self.old.len + length (line word.now (decimal number)) }
        ensures kept { Kept self.old self.new }
    {
        self.push_item(word, u64::from(number), b'\n');
    }

    // Puts the line of the best cost, if there is one, behind the text.
    #[tactic(auto, unfolding(crate::specs::Lines::item))]
    fn push_best(&mut self, best: Option<u32>)
        requires { Fits self.old (line (codes "best") (best_of best)) }
        ensures text { text_of self.new ≡ text_of self.old ++ (line (codes "best") (best_of best)) }
        ensures len { self.new.len ≡ self.old.len + length (line (codes "best") (best_of best)) }
        ensures kept { Kept self.old self.new }
    {
        match best {
            Some(cost) => self.push_line(b"best", cost),
            None => self.push(b"best none\n"),
        }
    }

    // Puts the report behind the text.
    #[tactic(auto, using(crate::proofs::Items::behind))]
    fn push_report(&mut self, ledger: &Ledger, best: Option<u32>)
        requires { Fits self.old (report_text (sums_of ledger.now) best) }
        ensures text { text_of self.new ≡ text_of self.old ++ (report_text (sums_of ledger.now) best) }
        ensures len { self.new.len ≡ self.old.len + length (report_text (sums_of ledger.now) best) }
        ensures kept { Kept self.old self.new }
    {
        self.push_line(b"requests", ledger.requests);
        self.push_line(b"house", ledger.house);
        self.push_line(b"rival", ledger.rival);
        self.push_line(b"paid", ledger.paid);
        self.push_line(b"free", ledger.free);
        self.push_line(b"twice", twice_of(ledger));
        self.push_line(b"floor", floor_of(ledger));
        self.push_best(best);
    }
}

// Writes the report of a ledger and a best cost, if there is one, to the buffer's front, and gives its length.
pub fn write_report(ledger: Ledger, best: Option<u32>, buffer: &mut [u8]) -> Result<usize, Denial>
    ensures text { printed (report_text (sums_of ledger) best) buffer.old ≡ (result, buffer.new) }
    ensures short { Short (length buffer.old) result }
{
    check_room(buffer)?;
    let mut text = Text::new(buffer);
    text.push_report(&ledger, best);
    Ok(text.len())
}
