// Readers of page logs and plan logs, which borrow a log's bytes and give one record after another.
#![tactic(auto)]

pub mod fault;
mod framing;
pub mod pages;
pub mod plans;
pub mod records;

pub use fault::{Fault, Log};
pub use pages::{PageReader, PageRecord, Request};
pub use plans::{Move, PlanReader};
pub use records::one_by_one;

#[cfg(test)]
mod tests;
