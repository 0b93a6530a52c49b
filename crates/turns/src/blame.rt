// Denials as faults: which log and which record they are held against.
ghost use Rattle.std.specs.Prelude.{◌≡◌};
ghost use Rattle.acceptance.specs.Judgement.{goal_log, number_in};
ghost use Rattle.turns.specs.Onward.{said_of, said_of_request};

use keys::Denial;
use logs::{Fault, Log};

// An answer whose denial is said of a record of a log.
pub fn said_of<T>(log: Log, at: usize, answer: Result<T, Denial>) -> Result<T, Fault>
    ensures { result ≡ said_of log at answer }
{
    answer.map_err(|denial| Fault { denial, log, at })
}

// The log that a request's denial is held against.
fn goal_log(denial: Denial) -> Log
    ensures { result ≡ goal_log denial }
{
    match denial {
        Denial::BadGoal => Log::Plan,
        _ => Log::Page,
    }
}

// The numbers of two records, of one in the page and of one in the plan.
#[derive(Clone, Copy)]
pub struct Records {
    pub page: usize,
    pub plan: usize,
}

impl Records {
    // The number of the one in a log.
    pub fn number_in(self, log: Log) -> usize
        ensures { result ≡ number_in log self.page self.plan }
    {
        match log {
            Log::Page => self.page,
            Log::Plan => self.plan,
        }
    }
}

// A request's answer, whose denial is said of its record in the page or of its goal in the plan.
pub fn said_of_request(answer: Result<(), Denial>, records: Records) -> Result<(), Fault>
    ensures { result ≡ said_of_request records.page records.plan answer }
{
    answer.map_err(|denial| {
        let log = goal_log(denial);
        let at = records.number_in(log);
        Fault { denial, log, at }
    })
}
