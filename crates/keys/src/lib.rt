// Denials, and kinds of key: the trait `Key`, with names and codes.
#![tactic(auto)]

pub mod code;
pub mod denial;
mod front;
pub mod key;
pub mod name;

pub use code::Code;
pub use denial::Denial;
pub use key::Key;
pub use name::Name;

#[cfg(test)]
mod tests;
