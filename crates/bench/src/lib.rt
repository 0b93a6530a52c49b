// The bench: a standing and two lines, house and rival, whose walking it counts.
#![tactic(auto)]

mod admit;
mod charge;
mod effect;
pub mod ledger;
pub mod standing;

pub use ledger::Ledger;
pub use standing::{Closed, Loading, Running};
