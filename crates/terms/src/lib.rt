// The shared vocabulary: numbers of five sorts, the sizes of a vault, its
// parties, the leader of a view, and the refusals.
#![tactic(auto)]

pub mod numbers;
pub mod parties;
pub mod refusals;
pub mod sizes;
