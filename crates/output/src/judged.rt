// Two logs, judged on two rows of 256 cells, which lie on the stack: no heap is used.
ghost use Rattle.std.specs.Prelude.{◌≡◌, length, cond, Ok, Err, nat_eq};
ghost use Rattle.std.specs.Str.{bytes_eq};
ghost use Rattle.keys.specs.Codes.{code_read};
ghost use Rattle.keys.specs.Names.{name_read};
ghost use Rattle.keys.specs.declared.denial.Denial.TheVariants.{TooLong};
ghost use Rattle.acceptance.specs.Scripts.{fault_on};
ghost use Rattle.judge.specs.Verdicts.{numbers_of};
ghost use Rattle.output.specs.Outputs.{answer_for, of_names, answer, too_long, sized_answer};

use bench::Ledger;
use judge::judge;
use keys::{Code, Denial, Key, Name};
use logs::{Fault, Log};
use row::Row;

// The most bytes that a log may have.
const MOST_BYTES: usize = 8192;

// Judges two logs on two rows over these cells, whatever they hold.
fn judge_on_rows<K: Key>(
    house_cells: &mut [K],
    rival_cells: &mut [K],
    page: &[u8],
    plan: &[u8],
) -> Result<Ledger, Fault>
    requires { (length house_cells.old ≡ 256) × (length rival_cells.old ≡ 256) }
    ensures { numbers_of result ≡ answer_for K.Key.equal K.Key.reading K.Key.LETTER page.now plan.now }
{
    let mut house = Row::new(house_cells);
    let mut rival = Row::new(rival_cells);
    judge(&mut house, &mut rival, page, plan)
}

// Whether byte 1 of a page names the kind of names.
fn is_of_names(page: &[u8]) -> bool
    ensures { result ≡ of_names page.now }
{
    matches!(page, [_, b'N', ..])
}

// Judges two logs of names. The cells of each kind lie in a function of their own, since a function pays at entry for the size of its locals.
fn judge_names(page: &[u8], plan: &[u8]) -> Result<Ledger, Fault>
    ensures { numbers_of result ≡ answer_for bytes_eq name_read 78 page.now plan.now }
{
    let filler = Name::default();
    judge_on_rows(&mut [filler; 256], &mut [filler; 256], page, plan)
}

// Judges two logs of codes.
fn judge_codes(page: &[u8], plan: &[u8]) -> Result<Ledger, Fault>
    ensures { numbers_of result ≡ answer_for nat_eq code_read 67 page.now plan.now }
{
    let filler = Code::default();
    judge_on_rows(&mut [filler; 256], &mut [filler; 256], page, plan)
}

// Judges two logs for the kind of key that the page names, codes where it names none.
fn judge_by_kind(page: &[u8], plan: &[u8]) -> Result<Ledger, Fault>
    ensures { numbers_of result ≡ answer page.now plan.now }
{
    if is_of_names(page) {
        return judge_names(page, plan);
    }
    judge_codes(page, plan)
}

// Denies a log that has more bytes than it may.
fn check_size(bytes: &[u8], log: Log) -> Result<(), Fault>
    ensures { result ≡ cond (too_long bytes.now) (Err (fault_on log 0 TooLong)) (Ok tt) }
{
    if bytes.len() > MOST_BYTES {
        return Err(Fault {
            denial: Denial::TooLong,
            log,
            at: 0,
        });
    }
    Ok(())
}

// Judges two logs that are not too long.
pub(crate) fn judge_sized(page: &[u8], plan: &[u8]) -> Result<Ledger, Fault>
    ensures { numbers_of result ≡ sized_answer page.now plan.now }
{
    check_size(page, Log::Page)?;
    check_size(plan, Log::Plan)?;
    judge_by_kind(page, plan)
}
