// Reading: from any bytes to a letter that borrows them, or a refusal.
#![tactic(auto)]

mod fields;
mod form;
pub mod parts;
mod spans;

pub use form::read;
