// What a controller keeps of orders, enrolments, votes and assents, each with its seal.
ghost use Rattle.std.specs.Prelude.{◌≡◌, is_some};
ghost use Rattle.std.specs.List.{list_all, list_any, zip};
ghost use Rattle.letters.specs.Certificates.{is_ready, row_ready, result_of};

use crate::sorts::{Answer, Seal};
use terms::numbers::{KeyNumber, View};
use terms::parties::Outcome;

// What the office ordered: a number, or none to cancel.
#[derive(Clone, Copy)]
pub struct Order {
    pub number: Option<KeyNumber>,
    pub seal: Seal,
}

// A lock's answer to the ordered number.
#[derive(Clone, Copy)]
pub struct Vote {
    pub answer: Answer,
    pub seal: Seal,
}

// Why a result was proposed: the order, the enrolled places with their enrol
// seals, and the votes, by place. Two tables of eight, nothing being on the heap: a place is enrolled
// first and votes later, and the layout has all enrolments before all votes.
#[derive(Clone, Copy)]
pub struct Certificate {
    pub order: Order,
    pub enrolled: [Option<Seal>; 8],
    pub votes: [Option<Vote>; 8],
}

// That an outcome may have been decided in a view: its certificate, the seal of
// the leader's proposal, and the seals of 2f assents, by seat.
#[derive(Clone, Copy)]
pub struct Basis {
    pub view: View,
    pub outcome: Outcome,
    pub certificate: Certificate,
    pub leader_seal: Seal,
    pub assents: [Option<Seal>; 16],
}

impl Vote {
    fn is_ready(&self) -> bool
        ensures { result ≡ is_ready self.now.answer }
    {
        self.answer == Answer::Ready
    }
}

// A place is not enrolled, or has voted ready.
fn row_ready(enrolment: Option<Seal>, vote: Option<Vote>) -> bool
    ensures { result ≡ row_ready enrolment vote }
{
    enrolment.is_none() || vote.is_some_and(|vote| vote.is_ready())
}

fn all_ready(enrolled: &[Option<Seal>], votes: &[Option<Vote>]) -> bool
    ensures { result ≡ list_all (λ p. row_ready p.0 p.1) (zip enrolled.now votes.now) }
{
    enrolled
        .iter()
        .zip(votes)
        .all(|(enrolment, vote)| row_ready(*enrolment, *vote))
}

fn some_enrolled(enrolled: &[Option<Seal>]) -> bool
    ensures { result ≡ list_any is_some enrolled.now }
{
    enrolled.iter().any(|enrolment| enrolment.is_some())
}

impl Certificate {
    // The ordered number, if some place is enrolled and all that are enrolled are ready; else keep.
    #[tactic(auto, using(crate::proofs::Rows::some_of_all, crate::proofs::Rows::ready_of_all))]
    pub fn result(&self) -> Outcome
        ensures { result ≡ result_of self.now }
    {
        match self.order.number {
            Some(number)
                if some_enrolled(&self.enrolled) && all_ready(&self.enrolled, &self.votes) => {
                Outcome::Number(number)
            }
            _ => Outcome::Keep,
        }
    }
}
