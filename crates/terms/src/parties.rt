// Who takes part in a vault, who leads, and what a change comes to.
ghost use Rattle.std.specs.Prelude.{◌≡◌};
ghost use Rattle.terms.specs.Sizes.{sized, vault_of, seat_count, quorum_of};
ghost use Rattle.terms.specs.Parties.{party_number, seat_in, place_in, party_in, leader_of};

use crate::numbers::{Change, KeyNumber, Place, Seat, View};
use crate::refusals::{Refusal, set_up};
use crate::sizes::Sizes;

// A controller at its seat, a lock at its place, or the office that orders a change.
#[derive(Clone, Copy, Debug, PartialEq, Eq)]
pub enum Party {
    Controller(Seat),
    Lock(Place),
    Office,
}

// What a change comes to: every door keeps its number, or all take this one. No option of a number, which would
// be read as an order's (none cancels) or as a result that is not known yet.
#[derive(Clone, Copy, Debug, PartialEq, Eq)]
pub enum Outcome {
    Keep,
    Number(KeyNumber),
}

impl Party {
    // The party's number in letters and statements; a method, since a row of keys has other numbers for parties.
    pub fn number(self) -> u32
        ensures { result ≡ party_number self }
    {
        match self {
            Party::Controller(seat) => seat.0 as u32,
            Party::Lock(place) => 32 + place.0 as u32,
            Party::Office => 64,
        }
    }
}

impl Sizes {
    pub fn new(faults: u32, locks: u32) -> Result<Sizes, Refusal>
        ensures { sized result ≡ vault_of faults locks }
    {
        if faults < 1 || faults > 5 || locks < 1 || locks > 8 {
            return Err(set_up());
        }
        Ok(Sizes {
            faults: faults as u8,
            locks: locks as u8,
        })
    }

    pub fn faults(self) -> u8
        ensures { result ≡ self.faults }
    {
        self.faults
    }

    pub fn locks(self) -> u8
        ensures { result ≡ self.locks }
    {
        self.locks
    }

    // N, how many controllers there are.
    pub fn seats(self) -> u8
        ensures { result ≡ seat_count self }
    {
        3 * self.faults + 1
    }

    // So many seats that any two sets of them share an honest one.
    pub fn quorum(self) -> u8
        ensures { result ≡ quorum_of self }
    {
        2 * self.faults + 1
    }

    pub fn seat(self, n: u32) -> Option<Seat>
        ensures { result ≡ seat_in self n }
    {
        if n < self.seats() as u32 {
            Some(Seat(n as u8))
        } else {
            None
        }
    }

    pub fn place(self, n: u32) -> Option<Place>
        ensures { result ≡ place_in self n }
    {
        if n < self.locks as u32 {
            Some(Place(n as u8))
        } else {
            None
        }
    }

    // The party of this vault that has the number n.
    pub fn party(self, n: u32) -> Option<Party>
        ensures { result ≡ party_in self n }
    {
        if n == 64 {
            return Some(Party::Office);
        }
        if n >= 32 {
            return self.place(n - 32).map(Party::Lock);
        }
        self.seat(n).map(Party::Controller)
    }

    // The seat that leads a view of a change.
    pub fn leader(self, _change: Change, view: View) -> Seat
        ensures { result ≡ leader_of self _change view }
    {
        Seat(view.number() % self.seats())
    }
}
