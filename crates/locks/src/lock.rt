// What a lock keeps.
use ballots::Receipted;
use terms::numbers::Place;
use terms::parties::Outcome;

// How far a lock has come. The last two are ended.
#[derive(Clone, Copy, PartialEq, Eq, PartialOrd, Ord)]
pub enum Standing {
    New,
    Applied,
    Enrolled,
    Ready,
    Changed,
    Kept,
}

// A lock at its place: the receipts and the results that it recorded, by seat. Two tables of sixteen, nothing being
// on the heap: a seat may have told of its receipt, of its result, of both or of none.
#[derive(Clone, Copy)]
pub struct Lock {
    pub(crate) place: Place,
    pub(crate) standing: Standing,
    pub(crate) receipts: [Option<Receipted>; 16],
    pub(crate) results: [Option<Outcome>; 16],
}
