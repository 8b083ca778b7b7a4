// A controller, by its rules.
#![tactic(auto)]

mod calls;
pub mod controller;
mod counts;
mod letters_in;
mod rules;
mod views;
