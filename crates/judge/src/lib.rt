// The judge: plays a page log and a plan log on a bench, and gives its ledger or the first fault.
#![tactic(auto)]

pub mod judging;
mod pages;

pub use judging::judge;
