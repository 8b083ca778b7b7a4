// A whole vault: the public calls over lent tables of units.
#![tactic(auto)]

mod calls;
mod handing;
mod public;
mod questions;
pub mod setting_up;
pub mod vault;
