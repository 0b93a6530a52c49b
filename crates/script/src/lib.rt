// Bench scripts: their words, what a line says, and what is said back.
#![tactic(auto)]

pub mod entry;
pub mod opening;
pub mod outcome;
pub mod spelled;
pub mod words;

pub use entry::{Call, Entry, Kind, Make, Plan, Term, read_entry};
pub use opening::Opening;
pub use outcome::{Refusal, answer};
pub use spelled::{keys_of, order_text, spell};
