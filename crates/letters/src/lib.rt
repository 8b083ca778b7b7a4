// Letters: what they hold, and the statements that their seals stand on.
#![tactic(auto)]

pub mod bodies;
pub mod certificates;
pub mod digests;
pub mod maps;
pub mod senders;
pub mod sorts;
pub mod statements;
