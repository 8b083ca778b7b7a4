// Rows of seals inside a letter.
ghost use Rattle.std.specs.Prelude.{◌≡◌, ℕ, Option};
ghost use Rattle.letters.specs.declared.statements.Borne.{Borne};
ghost use Rattle.letters.specs.Inner.{enrol_row, vote_row, assent_row};

use letters::bodies::Body;
use letters::certificates::Vote;
use letters::sorts::{Digest, Seal};
use letters::statements::{Borne, Statement};
use terms::numbers::{Change, KeyNumber, Place, Seat, View};
use terms::parties::{Outcome, Party};

// Rows of seals, each of which may be empty.
pub(crate) trait SealRows {
    ghost row: { Self → ℕ → Option Borne };

    // What row k bears.
    fn row_at(&self, k: u8) -> Option<Borne>
        ensures { result ≡ row self.now k };
}

// The enrol seals of a certificate, by place.
#[derive(Clone, Copy)]
pub(crate) struct Enrolments<'a> {
    pub(crate) change: Change,
    pub(crate) rows: &'a [Option<Seal>],
}

// The votes of a certificate, by place.
#[derive(Clone, Copy)]
pub(crate) struct Votes<'a> {
    pub(crate) change: Change,
    pub(crate) number: Option<KeyNumber>,
    pub(crate) rows: &'a [Option<Vote>],
}

// The assent seals of a basis, by seat.
#[derive(Clone, Copy)]
pub(crate) struct Assents<'a> {
    pub(crate) change: Change,
    pub(crate) view: View,
    pub(crate) outcome: Outcome,
    pub(crate) digest: Digest,
    pub(crate) rows: &'a [Option<Seal>],
}

impl SealRows for Enrolments<'_> {
    ghost row = { λ s k. enrol_row s.change s.rows.now k };

    fn row_at(&self, k: u8) -> Option<Borne> {
        let place = Place::new(k as u32)?;
        let seal = self.rows.get(k as usize).copied().flatten()?;
        Some(Borne {
            party: Party::Lock(place),
            statement: Statement::new(self.change, Body::Enrol { sender: place }),
            seal,
        })
    }
}

impl SealRows for Votes<'_> {
    ghost row = { λ s k. vote_row s.change s.number s.rows.now k };

    fn row_at(&self, k: u8) -> Option<Borne> {
        let place = Place::new(k as u32)?;
        let vote = self.rows.get(k as usize).copied().flatten()?;
        Some(Borne {
            party: Party::Lock(place),
            statement: Statement::of_vote(self.change, place, self.number, vote.answer),
            seal: vote.seal,
        })
    }
}

impl SealRows for Assents<'_> {
    ghost row = { λ s k. assent_row s.change s.view s.outcome s.digest s.rows.now k };

    fn row_at(&self, k: u8) -> Option<Borne> {
        let sender = Seat::new(k as u32)?;
        let seal = self.rows.get(k as usize).copied().flatten()?;
        let body = Body::Assent {
            sender,
            view: self.view,
            outcome: self.outcome,
            digest: self.digest,
        };
        Some(Borne {
            party: Party::Controller(sender),
            statement: Statement::new(self.change, body),
            seal,
        })
    }
}
