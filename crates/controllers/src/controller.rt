// What a controller keeps.
use ballots::Pair;
use letters::certificates::{Basis, Certificate, Order, Vote};
use letters::sorts::{Digest, Seal, SeatSet};
use terms::numbers::{Seat, View};
use terms::parties::Outcome;

// A proposal that is held, with its leader's seal.
#[derive(Clone, Copy)]
pub struct Proposal {
    pub(crate) outcome: Outcome,
    pub(crate) digest: Digest,
    pub(crate) certificate: Certificate,
    pub(crate) seal: Seal,
}

// What belongs to one view: the held proposal and the ballots on it, by seat.
#[derive(Clone, Copy)]
pub struct Round {
    pub(crate) proposal: Option<Proposal>,
    // Two tables by seat: a basis takes the seals as they stand, the count of ballots the pairs.
    pub(crate) assents: [Option<Pair>; 16],
    pub(crate) seals: [Option<Seal>; 16],
    pub(crate) confirms: [Option<Pair>; 16],
}

// That a seat moved to a view, with the basis that it had.
#[derive(Clone, Copy)]
pub struct MoveRecord {
    pub(crate) view: View,
    pub(crate) basis: Option<Basis>,
}

// Seats that were picked: their map, and how many they are. The count spares adding up the
// bits at each seat.
#[derive(Clone, Copy)]
pub struct Picked {
    pub(crate) map: u16,
    pub(crate) count: u8,
}

// What a leader is to propose.
#[derive(Clone, Copy)]
pub struct Draft {
    pub(crate) outcome: Outcome,
    pub(crate) certificate: Certificate,
    pub(crate) movers: SeatSet,
}

// All of a controller, in tables of fixed length, since nothing is on the heap.
#[derive(Clone, Copy)]
pub struct Controller {
    pub(crate) seat: Seat,
    pub(crate) view: View,
    // Two tables by place: an order closes the first, and only then the second is filled.
    pub(crate) registered: [Option<Seal>; 8],
    pub(crate) order: Option<Order>,
    pub(crate) votes: [Option<Vote>; 8],
    pub(crate) round: Round,
    pub(crate) basis: Option<Basis>,
    pub(crate) records: [Option<MoveRecord>; 16],
    pub(crate) result: Option<Outcome>,
}
