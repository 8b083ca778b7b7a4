// Accepting the seals that a letter bears.
ghost use Rattle.std.specs.Prelude.{◌≡◌, ◌+◌, ◌<◌, ◌≤◌, IfOk};
ghost use Rattle.letters.specs.Inner.{bears, rows_borne, certificate_borne, basis_borne, grounds_borne, inner_borne};
ghost use Rattle.letters.specs.Statements.{order_statement};
ghost use Rattle.seals.specs.Opening as Opening;

use crate::guard::{Room, accepts};
use crate::rows::{Assents, Enrolments, SealRows, Votes};
use letters::bodies::{Body, WholeBody};
use letters::certificates::{Basis, Certificate};
use letters::senders::sender_of;
use letters::sorts::{Seal, SeatSet};
use letters::statements::{Borne, Statement};
use schemes::scheme::Scheme;
use terms::numbers::{Change, KeyNumber};
use terms::parties::Party;
use terms::refusals::{Cause, Refusal, SealCause};
use terms::sizes::Sizes;
use writing::briefs::in_brief;
use writing::certificates::certificate_digest;

// What the seals of a letter are held against: the sizes of the vault, a scheme and
// the letter's change.
#[derive(Drop)]
pub(crate) struct Judge<'a, S> {
    pub(crate) sizes: Sizes,
    pub(crate) scheme: &'a S,
    pub(crate) change: Change,
}

// A seal is not accepted.
fn unsealed(cause: SealCause, place: usize) -> Refusal
    ensures { result ≡ Opening.unsealed cause place }
{
    Refusal {
        cause: Cause::Seal(cause),
        place,
    }
}

// Each step is told how many seals stand accepted before it and answers how many then do:
// a refusal points to that place.
impl<S: Scheme> Judge<'_, S> {
    fn accept_one(&self, room: &mut Room, borne: Borne, before: usize) -> Result<usize, Refusal>
        requires { before < 1000 }
        ensures answer { result ≡ Opening.accept_one (S.Scheme.holds self.now.scheme.now) borne before }
        ensures bound { IfOk result (λ n. n ≤ before + 1) }
    {
        if !accepts(self.scheme, room, borne) {
            return Err(unsealed(SealCause::Inner, before));
        }
        Ok(before + 1)
    }

    // The seal of a row, if the row has one. How many were accepted before is handed in and out: within the judge,
    // each method would owe what stays of it. A match here and at the grounds of a move: `map_or` would lend the room
    // to a closure.
    fn accept_if(
        &self,
        room: &mut Room,
        row: Option<Borne>,
        before: usize,
    ) -> Result<usize, Refusal>
        requires { before < 1000 }
        ensures answer { result ≡ Opening.accept_if (S.Scheme.holds self.now.scheme.now) row before }
        ensures bound { IfOk result (λ n. n ≤ before + 1) }
    {
        match row {
            Some(borne) => self.accept_one(room, borne, before),
            None => Ok(before),
        }
    }

    // The seals of one row after the other.
    #[tactic(auto, using(crate::proofs::Accepts::accept_row, crate::proofs::Accepts::accept_no_row))]
    fn accept_rows<R: SealRows>(
        &self,
        room: &mut Room,
        rows: &R,
        count: u8,
        before: usize,
    ) -> Result<usize, Refusal>
        requires { before < 500 }
        ensures answer { result ≡ Opening.accept_all (S.Scheme.holds self.now.scheme.now) (rows_borne (R.SealRows.row rows.now) 0 count) before }
        ensures bound { IfOk result (λ n. n ≤ before + count) }
    {
        let mut n = before;
        // Rows are asked by number, so the loop counts them.
        for k in 0..count {
            n = self.accept_if(room, rows.row_at(k), n)?;
        }
        Ok(n)
    }

    // The office's seal on an order.
    fn ordered(&self, number: Option<KeyNumber>, seal: Seal) -> Borne
        ensures { result ≡ bears Party.Office (order_statement self.now.change number) seal }
    {
        Borne {
            party: Party::Office,
            statement: Statement::new(self.change, Body::Order { number }),
            seal,
        }
    }

    // The office's order, the enrolments, the votes.
    #[tactic(auto, using(crate::proofs::Accepts::accept_steps))]
    fn accept_certificate(
        &self,
        room: &mut Room,
        certificate: &Certificate,
        before: usize,
    ) -> Result<usize, Refusal>
        requires { before < 100 }
        ensures { result ≡ Opening.accept_all (S.Scheme.holds self.now.scheme.now) (certificate_borne self.now.change certificate.now) before }
    {
        let change = self.change;
        let number = certificate.order.number;
        let order = self.ordered(number, certificate.order.seal);
        let enrolments = Enrolments {
            change,
            rows: &certificate.enrolled,
        };
        let votes = Votes {
            change,
            number,
            rows: &certificate.votes,
        };
        let n = self.accept_one(room, order, before)?;
        let n = self.accept_rows(room, &enrolments, 8, n)?;
        self.accept_rows(room, &votes, 8, n)
    }

    // The leader's proposal and the assents of the basis' view.
    #[tactic(auto, using(crate::proofs::Accepts::accept_steps))]
    fn accept_basis(&self, room: &mut Room, basis: &Basis, before: usize) -> Result<usize, Refusal>
        requires { before < 10 }
        ensures answer { result ≡ Opening.accept_all (S.Scheme.holds self.now.scheme.now) (basis_borne self.now.sizes self.now.change basis.now) before }
        ensures bound { IfOk result (λ n. n ≤ before + 17) }
    {
        let change = self.change;
        let leader = self.sizes.leader(change, basis.view);
        let digest = certificate_digest(&basis.certificate);
        let proposal = Body::Proposal {
            sender: leader,
            view: basis.view,
            outcome: basis.outcome,
            certificate: digest,
            movers: SeatSet(0),
        };
        let proposed = Borne {
            party: Party::Controller(leader),
            statement: Statement::new(change, proposal),
            seal: basis.leader_seal,
        };
        let assents = Assents {
            change,
            view: basis.view,
            outcome: basis.outcome,
            digest,
            rows: &basis.assents,
        };
        let n = self.accept_one(room, proposed, before)?;
        self.accept_rows(room, &assents, 16, n)
    }

    #[tactic(auto, using(crate::proofs::Accepts::accept_steps))]
    fn accept_grounds(&self, room: &mut Room, basis: &Option<Basis>) -> Result<usize, Refusal>
        ensures { result ≡ Opening.accept_all (S.Scheme.holds self.now.scheme.now) (grounds_borne self.now.sizes self.now.change basis.now) 0 }
    {
        match basis {
            None => Ok(0),
            Some(basis) => {
                let n = self.accept_basis(room, basis, 0)?;
                self.accept_certificate(room, &basis.certificate, n)
            }
        }
    }

    // The seals inside a letter.
    #[tactic(auto, using(crate::proofs::Accepts::accept_steps))]
    fn accept_inner(&self, room: &mut Room, body: &WholeBody) -> Result<usize, Refusal>
        ensures { result ≡ Opening.accept_all (S.Scheme.holds self.now.scheme.now) (inner_borne self.now.sizes self.now.change body.now) 0 }
    {
        match body {
            Body::Summons {
                number,
                office_seal,
                ..
            } => {
                let order = self.ordered(Some(*number), *office_seal);
                self.accept_one(room, order, 0)
            }
            Body::Proposal { certificate, .. } => self.accept_certificate(room, certificate, 0),
            Body::Move { basis, .. } => self.accept_grounds(room, basis),
            _ => Ok(0),
        }
    }

    // The sender's seal, then the seals inside.
    pub(crate) fn accept_letter(
        &self,
        room: &mut Room,
        body: &WholeBody,
        seal: Seal,
    ) -> Result<usize, Refusal>
        ensures { result ≡ Opening.accept_letter self.now.sizes (S.Scheme.holds self.now.scheme.now) self.now.change body.now seal }
    {
        let sealed = sender_borne(self.change, body, seal);
        if !accepts(self.scheme, room, sealed) {
            return Err(unsealed(SealCause::Sender, 0));
        }
        self.accept_inner(room, body)
    }
}

// The seal of a letter's sender.
pub(crate) fn sender_borne(change: Change, body: &WholeBody, seal: Seal) -> Borne
    ensures { result ≡ Opening.sender_borne change body.now seal }
{
    Borne {
        party: sender_of(body),
        statement: Statement::new(change, in_brief(body)),
        seal,
    }
}
