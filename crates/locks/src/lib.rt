// A lock, by its rules.
#![tactic(auto)]

mod calls;
mod letters_in;
pub mod lock;
mod receiving;
mod rules;
