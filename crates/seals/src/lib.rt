// Seals on letters: the scratch guard, opening and sealing.
#![tactic(auto)]

mod accepting;
pub mod clearing;
mod guard;
pub mod opening;
mod rows;
pub mod sealing;
