// One turn of a page and a plan: a page record with its key read, the plan's exchanges, and the request with its goal.
#![tactic(auto)]

pub mod blame;
pub mod entry;
pub mod plays;

pub use blame::{Records, said_of, said_of_request};
pub use entry::next_entry;
pub use plays::{make_request, serve};
