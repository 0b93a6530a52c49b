// What becomes of a line of the script.
ghost use Rattle.std.specs.Prelude.{◌≡◌, ◌++◌, IfOk, Some, string_bytes};
ghost use Rattle.script.specs.declared.outcome.Refusal.TheVariants.{Denied};
ghost use Rattle.script.specs.Shown.{refusal_text, outcome_text};

use keys::Denial;
use std::alloc::{AllocError, Global};
use std::fmt;

// Why a line of the script had no effect.
#[derive(Clone, Copy)]
pub enum Refusal {
    // The bench denied the call.
    Denied(Denial),
    // The line says nothing.
    NoCall,
    // What the line says does not fit the standing.
    Unfit,
}

impl From<Denial> for Refusal {
    ghost from_gives = { λ denial r. r ≡ Denied denial };

    fn from(denial: Denial) -> Refusal {
        Refusal::Denied(denial)
    }
}

impl fmt::Display for Refusal {
    ghost output = { λ r. Some (refusal_text r) };

    fn fmt<W: fmt::Write>(&self, f: &mut fmt::Formatter<W>) -> fmt::Result {
        match self {
            Refusal::Denied(denial) => write!(f, " denied {}", denial.number()),
            Refusal::NoCall => write!(f, ": not a call"),
            Refusal::Unfit => write!(f, ": does not fit the standing"),
        }
    }
}

// A line of the script with its outcome behind it.
pub fn answer(heap: Global, line: &str, outcome: Result<(), Refusal>) -> Result<String, AllocError>
    ensures { IfOk result (λ s. string_bytes s ≡ line.now ++ outcome_text outcome) }
{
    match outcome {
        Ok(()) => format!(in heap; "{line} ok"),
        Err(refusal) => format!(in heap; "{line}{refusal}"),
    }
}
