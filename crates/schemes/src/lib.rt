// Seal schemes: what a scheme is, and its two kinds.
#![tactic(auto)]

pub mod digest_seals;
pub mod keys;
mod row_seals;
pub mod scheme;
pub mod sheet_seals;
pub mod sip;
