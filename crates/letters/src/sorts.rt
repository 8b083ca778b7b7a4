// Seals, digests, sets of seats, and the enums that stand for bytes of a letter.
ghost use Rattle.std.specs.Prelude.{◌≡◌};
ghost use Rattle.letters.specs.Sorts.{kind_number, kind_of, answer_number, answer_of, in_range, holds_seat};

use crate::maps::stands;
use terms::numbers::Seat;
use terms::refusals::FormCause;

// What a party puts under a statement.
#[derive(Clone, Copy, PartialEq, Eq)]
pub struct Seal(pub u64);

// The digest of a certificate's bytes.
#[derive(Clone, Copy, PartialEq, Eq)]
pub struct Digest(pub u64);

// A set of seats: bit s stands if seat s is in it.
#[derive(Clone, Copy, PartialEq, Eq)]
pub struct SeatSet(pub u16);

// The kinds of letters.
#[derive(Clone, Copy, PartialEq, Eq)]
pub enum Kind {
    Enrol,
    Receipt,
    Order,
    Summons,
    Vote,
    Proposal,
    Assent,
    Confirm,
    Result,
    Move,
}

// What a lock says to an ordered number.
#[derive(Clone, Copy, PartialEq, Eq)]
pub enum Answer {
    Ready,
    Refuse,
}

// The number of a kind and of an answer is asked by a method, which says what is asked; `From` would not.
impl Kind {
    pub fn number(self) -> u8
        ensures { result ≡ kind_number self }
    {
        match self {
            Kind::Enrol => 1,
            Kind::Receipt => 2,
            Kind::Order => 3,
            Kind::Summons => 4,
            Kind::Vote => 5,
            Kind::Proposal => 6,
            Kind::Assent => 7,
            Kind::Confirm => 8,
            Kind::Result => 9,
            Kind::Move => 10,
        }
    }
}

// A byte that is the number of no kind is out of range.
impl TryFrom<u8> for Kind {
    type Error = FormCause;

    ghost try_from_gives = { λ n r. r ≡ in_range (kind_of n) };

    fn try_from(n: u8) -> Result<Kind, FormCause> {
        match n {
            1 => Ok(Kind::Enrol),
            2 => Ok(Kind::Receipt),
            3 => Ok(Kind::Order),
            4 => Ok(Kind::Summons),
            5 => Ok(Kind::Vote),
            6 => Ok(Kind::Proposal),
            7 => Ok(Kind::Assent),
            8 => Ok(Kind::Confirm),
            9 => Ok(Kind::Result),
            10 => Ok(Kind::Move),
            _ => Err(FormCause::OutOfRange),
        }
    }
}

impl Answer {
    pub fn number(self) -> u8
        ensures { result ≡ answer_number self }
    {
        match self {
            Answer::Ready => 1,
            Answer::Refuse => 0,
        }
    }
}

// A byte that is the number of no answer is out of range.
impl TryFrom<u8> for Answer {
    type Error = FormCause;

    ghost try_from_gives = { λ n r. r ≡ in_range (answer_of n) };

    fn try_from(n: u8) -> Result<Answer, FormCause> {
        match n {
            1 => Ok(Answer::Ready),
            0 => Ok(Answer::Refuse),
            _ => Err(FormCause::OutOfRange),
        }
    }
}

impl SeatSet {
    pub fn holds(self, seat: Seat) -> bool
        ensures { result ≡ holds_seat self seat }
    {
        seat.number() < 16 && stands(self.0, seat.number())
    }
}
