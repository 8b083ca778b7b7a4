// The letters, by kind.
ghost use Rattle.std.specs.Prelude.{◌≡◌};
ghost use Rattle.letters.specs.Bodies.{kind_of_body};
ghost use Rattle.letters.specs.Retold.{RetoldBy};

use crate::certificates::{Basis, Certificate};
use crate::sorts::{Answer, Digest, Kind, Seal, SeatSet};
use terms::numbers::{Change, KeyNumber, Place, Seat, View};
use terms::parties::Outcome;

// What a letter says, but for its change and its seal. The certificate and the
// basis are values in a letter to be sent (`Certificate`, `Basis`), parts of the
// bytes in one that was read, and only told of in a statement (`Digest`, `Brief`).
#[derive(Clone, Copy)]
pub enum Body<C, B> {
    Enrol {
        sender: Place,
    },
    Receipt {
        sender: Seat,
        place: Place,
    },
    Order {
        number: Option<KeyNumber>,
    },
    Summons {
        sender: Seat,
        number: KeyNumber,
        office_seal: Seal,
    },
    Vote {
        sender: Place,
        number: KeyNumber,
        answer: Answer,
    },
    Proposal {
        sender: Seat,
        view: View,
        outcome: Outcome,
        certificate: C,
        movers: SeatSet,
    },
    Assent {
        sender: Seat,
        view: View,
        outcome: Outcome,
        digest: Digest,
    },
    Confirm {
        sender: Seat,
        view: View,
        outcome: Outcome,
        digest: Digest,
    },
    Result {
        sender: Seat,
        outcome: Outcome,
    },
    Move {
        sender: Seat,
        view: View,
        basis: Option<B>,
    },
}

impl<C, B> Body<C, B> {
    pub fn kind(&self) -> Kind
        ensures { result ≡ kind_of_body self.now }
    {
        match self {
            Body::Enrol { .. } => Kind::Enrol,
            Body::Receipt { .. } => Kind::Receipt,
            Body::Order { .. } => Kind::Order,
            Body::Summons { .. } => Kind::Summons,
            Body::Vote { .. } => Kind::Vote,
            Body::Proposal { .. } => Kind::Proposal,
            Body::Assent { .. } => Kind::Assent,
            Body::Confirm { .. } => Kind::Confirm,
            Body::Result { .. } => Kind::Result,
            Body::Move { .. } => Kind::Move,
        }
    }

    // The same letter, with another account of its certificate and its basis.
    pub fn retold<C2, B2, F: FnOnce(C) -> C2, G: FnOnce(B) -> B2>(self, f: F, g: G) -> Body<C2, B2>
        requires certificates { F.IsAlwaysCallable f }
        requires bases { G.IsAlwaysCallable g }
        ensures { RetoldBy (F.post f) (G.post g) self result }
    {
        match self {
            Body::Enrol { sender } => Body::Enrol { sender },
            Body::Receipt { sender, place } => Body::Receipt { sender, place },
            Body::Order { number } => Body::Order { number },
            Body::Summons {
                sender,
                number,
                office_seal,
            } => Body::Summons {
                sender,
                number,
                office_seal,
            },
            Body::Vote {
                sender,
                number,
                answer,
            } => Body::Vote {
                sender,
                number,
                answer,
            },
            Body::Proposal {
                sender,
                view,
                outcome,
                certificate,
                movers,
            } => Body::Proposal {
                sender,
                view,
                outcome,
                certificate: f(certificate),
                movers,
            },
            Body::Assent {
                sender,
                view,
                outcome,
                digest,
            } => Body::Assent {
                sender,
                view,
                outcome,
                digest,
            },
            Body::Confirm {
                sender,
                view,
                outcome,
                digest,
            } => Body::Confirm {
                sender,
                view,
                outcome,
                digest,
            },
            Body::Result { sender, outcome } => Body::Result { sender, outcome },
            Body::Move {
                sender,
                view,
                basis,
            } => Body::Move {
                sender,
                view,
                basis: basis.map(g),
            },
        }
    }
}

// A body with its certificate and its basis whole, as a letter to be sent has them.
pub type WholeBody = Body<Certificate, Basis>;

// What a move's statement tells of its basis.
#[derive(Clone, Copy)]
pub struct Brief {
    pub view: View,
    pub outcome: Outcome,
    pub digest: Digest,
}

// A whole letter: which change it belongs to, what it says, and its sender's seal.
#[derive(Clone, Copy)]
pub struct Letter<C, B> {
    pub change: Change,
    pub body: Body<C, B>,
    pub seal: Seal,
}

// A letter to be sent.
pub type WholeLetter = Letter<Certificate, Basis>;
