// Letters, certificates and statements as bytes.
#![tactic(auto, unfolding(letters::specs::Bytes::le2, letters::specs::Bytes::le4, letters::specs::Bytes::le8))]

mod bodies;
pub mod briefs;
pub mod certificates;
mod drafts;
mod maps;
pub mod statements;
pub mod whole;
