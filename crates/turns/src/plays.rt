// A request, as page and plan give it: the plan's exchanges, and then the request with its goal. Bench and lines are handed on apart, as
// the judge is lent them: a struct of them would have to say in each contract that it still holds the same lines.
ghost use Rattle.std.specs.Prelude.{◌≡◌};
ghost use Rattle.acceptance.specs.Scripts.{Script, requesting};
ghost use Rattle.turns.specs.Onward.{asked_of, Taken, resuming, Continues, UpToGoal, Serves};

use super::blame::{Records, said_of, said_of_request};
use bench::Running;
use keys::{Denial, Key};
use lines::Line;
use logs::{Fault, Log, Move, PlanReader, Request};

// Makes a request with its goal; the records are its own in the page and its goal's in the plan.
pub fn make_request<K: Key, H: Line<K>, R: Line<K>>(
    bench: &mut Running,
    house: &mut H,
    rival: &mut R,
    asked: Request<K>,
    goal: usize,
    records: Records,
) -> Result<(), Fault>
    ensures { (rest : Script K.Key.Value) → Continues K.Key.own H.Line R.Line house.old rival.old bench.old.ledger (requesting (asked_of K.Key.own asked) goal records.page records.plan rest) house.new rival.new bench.new.ledger (resuming result (λ _. rest)) }
{
    match asked {
        Request::Lookup(key) => said_of_request(bench.lookup(house, rival, key, goal), records),
        Request::Add(key) => said_of_request(bench.add(house, rival, key, goal), records),
        Request::Remove(key) => {
            if goal != 0 {
                return said_of(Log::Plan, records.plan, Err(Denial::Misfit));
            }
            said_of(Log::Page, records.page, bench.remove(house, rival, key))
        }
    }
}

// The next move of a plan; where it has ended, the goal is missing.
fn next_move(plan: &mut PlanReader<'_>) -> Result<Move, Fault>
    ensures { Taken result plan.old plan.new }
{
    let at = plan.passed() + 1;
    let Some(taken) = said_of(Log::Plan, at, plan.next())? else {
        return said_of(Log::Plan, at, Err(Denial::Misfit));
    };
    Ok(taken)
}

// Makes the exchanges that the plan has before its next goal, and gives that goal.
fn play_exchanges<K: Key, H: Line<K>, R: Line<K>>(
    bench: &mut Running,
    house: &H,
    rival: &mut R,
    plan: &mut PlanReader<'_>,
) -> Result<usize, Fault>
    ensures { UpToGoal K.Key.own H.Line R.Line house.now rival.old bench.old.ledger plan.old result rival.new bench.new.ledger plan.new }
{
    loop {
        match next_move(plan)? {
            Move::Goal(goal) => return Ok(goal as usize),
            Move::Exchange(place) => {
                let done = bench.exchange(house, rival, place as usize);
                said_of(Log::Plan, plan.passed(), done)?;
            }
        }
    }
}

// Serves a request of the page, read at its record of this number: the plan's exchanges, and then the request with the plan's goal.
pub fn serve<K: Key, H: Line<K>, R: Line<K>>(
    bench: &mut Running,
    house: &mut H,
    rival: &mut R,
    asked: Request<K>,
    page: usize,
    plan: &mut PlanReader<'_>,
) -> Result<(), Fault>
    ensures { Serves K.Key.own H.Line R.Line (asked_of K.Key.own asked) page house.old rival.old bench.old.ledger plan.old result house.new rival.new bench.new.ledger plan.new }
{
    let goal = play_exchanges(bench, house, rival, plan)?;
    let records = Records {
        page,
        plan: plan.passed(),
    };
    make_request(bench, house, rival, asked, goal, records)
}
