// Reports of ledgers and fault lines, as text in a caller's buffer.
#![tactic(auto)]

pub mod fault;
pub mod report;
mod text;

pub use fault::write_fault;
pub use report::write_report;

#[cfg(test)]
mod tests;
