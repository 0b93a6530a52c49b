// What the program prints: two logs in, the report or the fault line out.
#![tactic(auto)]

mod judged;
pub mod output;

pub use output::write_output;
