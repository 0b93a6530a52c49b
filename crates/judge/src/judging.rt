// The judge.
ghost use Rattle.std.specs.Prelude.{◌≡◌, ◌+◌};
ghost use Rattle.logs.specs.Cursors.{left_of, passed_of};
ghost use Rattle.turns.specs.Onward.{left_over, PlayedOut};
ghost use Rattle.judge.specs.Verdicts.{Judged};

use super::pages::{load_all, serve_all};
use bench::{Ledger, Loading};
use keys::{Denial, Key};
use lines::Line;
use logs::{Fault, Log, PageReader, PlanReader};
use turns::said_of;

// Nothing may be left of a plan behind the last request.
fn check_ended(plan: &PlanReader<'_>) -> Result<(), Fault>
    ensures { result ≡ left_over (passed_of plan.now.cursor + 1) (left_of plan.now.cursor) }
{
    if !plan.is_done() {
        return said_of(Log::Plan, plan.passed() + 1, Err(Denial::Misfit));
    }
    Ok(())
}

// Plays two logs on a bench: loads, starts, serves and closes.
fn play_logs<K: Key, H: Line<K>, R: Line<K>>(
    mut bench: Loading,
    house: &mut H,
    rival: &mut R,
    mut page: PageReader<'_>,
    mut plan: PlanReader<'_>,
) -> Result<Ledger, Fault>
    requires { passed_of plan.cursor ≡ 0 }
    ensures { PlayedOut K.Key.own H.Line R.Line house.old rival.old bench.ledger page.entry plan.entry result house.new rival.new }
{
    let first = load_all(&mut bench, house, rival, &mut page)?;
    let mut bench = bench.start(house, rival);
    serve_all(&mut bench, house, rival, &mut page, &mut plan, first)?;
    check_ended(&plan)?;
    let closed = bench.close(house, rival);
    Ok(closed.ledger())
}

// Judges a plan log on a page log: plays both on a bench of two empty lines, and gives its ledger or the first fault. What was done
// before a fault remains in the lines.
pub fn judge<K: Key, H: Line<K>, R: Line<K>>(
    house: &mut H,
    rival: &mut R,
    page: &[u8],
    plan: &[u8],
) -> Result<Ledger, Fault>
    ensures { Judged K.Key.own H.Line R.Line page.now plan.now house.old rival.old result house.new rival.new }
{
    let bench = said_of(Log::Page, 0, Loading::open(house, rival))?;
    let page = said_of(Log::Page, 0, PageReader::open::<K>(page))?;
    let plan = said_of(Log::Plan, 0, PlanReader::open(plan))?;
    play_logs(bench, house, rival, page, plan)
}
