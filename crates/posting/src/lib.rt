// Posting what a rule gives: up to two letters, each under its sender's seal, one right after the other.
#![tactic(auto)]

pub mod few;
pub mod finish;
pub mod post;
pub mod replies;
pub mod room;
