// The rules of a controller on proposals, assents, confirms and views.
ghost use Rattle.std.specs.Prelude.{◌≡◌, ◌+◌, ◌*◌, ◌<◌, Ok};
ghost use Rattle.controllers.specs.Rules as Rules;
ghost use Rattle.posting.specs.Replies as Replies;

use crate::controller::{Controller, Draft, MoveRecord, Proposal, Round};
use crate::counts::{all_recorded, choose, covers, pick};
use ballots::{Ballot, Pair, entry, put, tally};
use letters::bodies::{Body, WholeBody};
use letters::certificates::{Basis, Certificate};
use letters::sorts::{Seal, SeatSet};
use posting::few::AtMostTwo;
use posting::replies::{Bodies, Reply};
use terms::numbers::{Change, Seat, View};
use terms::refusals::RuleCause;
use terms::sizes::Sizes;
use writing::certificates::certificate_digest;

pub(crate) fn empty_round() -> Round
    ensures { result ≡ Rules.empty_round }
{
    Round {
        proposal: None,
        assents: [None; 16],
        seals: [None; 16],
        confirms: [None; 16],
    }
}

fn names_from(slot: Option<MoveRecord>, view: View) -> bool
    ensures { result ≡ Rules.names_from slot view }
{
    slot.is_some_and(|record| record.view >= view)
}

fn false_basis(basis: &Option<Basis>) -> bool
    ensures { result ≡ Rules.false_basis basis.now }
{
    basis.is_some_and(|basis| !basis.certificate.result().agrees(&basis.outcome))
}

impl Proposal {
    // What a ballot on it stands for.
    fn pair(&self) -> Pair
        ensures { result ≡ Rules.pair_of self.now }
    {
        Pair {
            outcome: self.outcome,
            digest: self.digest,
        }
    }
}

impl Round {
    fn record_assent(&mut self, seat: Seat, pair: Pair, seal: Seal)
        ensures { self.new ≡ Rules.assented self.old seat pair seal }
    {
        put(&mut self.assents, seat.number(), Some(pair));
        put(&mut self.seals, seat.number(), Some(seal));
    }

    fn record_confirm(&mut self, seat: Seat, pair: Pair)
        ensures { self.new ≡ Rules.confirmed self.old seat pair }
    {
        put(&mut self.confirms, seat.number(), Some(pair));
    }
}

impl Controller {
    // The highest basis among the movers' records of this view; none in view 0.
    pub(crate) fn choice(&self, movers: SeatSet) -> Option<Basis>
        ensures { result ≡ Rules.choice self.now movers }
    {
        if self.view.number() == 0 {
            return None;
        }
        choose(&self.records, movers, self.view)
    }

    fn may_choose(&self, proposal: &Proposal, choice: Option<Basis>) -> Result<(), RuleCause>
        ensures { result ≡ Rules.may_choose self.now proposal.now.outcome proposal.now.certificate proposal.now.digest choice }
    {
        match choice {
            Some(basis) => {
                let chosen = Pair {
                    outcome: basis.outcome,
                    digest: certificate_digest(&basis.certificate),
                };
                if !proposal.pair().agrees(&chosen) {
                    return Err(RuleCause::AgainstChoice);
                }
                Ok(())
            }
            None => {
                if !covers(&self.registered, &proposal.certificate.enrolled) {
                    return Err(RuleCause::PlaceLeftOut);
                }
                Ok(())
            }
        }
    }

    // The own seat leads the own view.
    pub(crate) fn leads(&self, sizes: Sizes, change: Change) -> bool
        ensures { result ≡ Rules.leads sizes change self.now }
    {
        sizes.leader(change, self.view) == self.seat
    }

    pub(crate) fn may_hold(
        &self,
        sizes: Sizes,
        change: Change,
        view: View,
        movers: SeatSet,
        proposal: &Proposal,
    ) -> Result<(), RuleCause>
        ensures { result ≡ Rules.may_hold sizes change self.now view proposal.now.outcome proposal.now.certificate proposal.now.digest movers }
    {
        if view != self.view {
            return Err(RuleCause::OtherView);
        }
        if self.leads(sizes, change) {
            return Err(RuleCause::OutOfTurn);
        }
        if self.round.proposal.is_some() {
            return Err(RuleCause::Repeated);
        }
        if !proposal.certificate.result().agrees(&proposal.outcome) {
            return Err(RuleCause::FalseResult);
        }
        if !all_recorded(&self.records, movers, self.view) {
            return Err(RuleCause::MoversMissing);
        }
        self.may_choose(proposal, self.choice(movers))
    }

    // The proposal is held, and its order if none is.
    pub(crate) fn hold(&mut self, proposal: Proposal)
        ensures { self.new ≡ Rules.hold self.old proposal }
    {
        self.order = self.order.or(Some(proposal.certificate.order));
        self.round.proposal = Some(proposal);
    }

    // The own assent to the held proposal, with its seal.
    pub(crate) fn record_own_assent(&mut self, own: Seal)
        ensures { self.new ≡ Rules.seconded self.old own self.old.round.proposal }
    {
        if let Some(held) = self.round.proposal {
            let seat = self.seat;
            self.round.record_assent(seat, held.pair(), own);
        }
    }

    fn confirmed_here(&self) -> bool
        ensures { result ≡ Rules.confirmed_here self.now }
    {
        self.basis.is_some_and(|basis| basis.view == self.view)
    }

    fn concludes(&self, sizes: Sizes, pair: Pair) -> bool
        ensures { result ≡ Rules.concludes sizes self.now pair }
    {
        self.confirmed_here()
            && tally(&self.round.confirms, &pair) >= sizes.quorum() as usize
            && self.result.is_none()
    }

    // Takes the result, if it is time; says whether it did.
    fn conclude(&mut self, sizes: Sizes, pair: Pair) -> bool
        ensures answer { result ≡ Rules.concludes sizes self.old pair }
        ensures unit { self.new ≡ Rules.concluded sizes self.old pair }
    {
        if !self.concludes(sizes, pair) {
            return false;
        }
        self.result = Some(pair.outcome);
        true
    }

    // An assent or a confirm is of this view and on the held proposal.
    fn may_second(&self, view: View, pair: Pair) -> Result<(), RuleCause>
        ensures { result ≡ Rules.may_second self.now view pair }
    {
        if view != self.view {
            return Err(RuleCause::OtherView);
        }
        let held = self.round.proposal.ok_or(RuleCause::OutOfTurn)?;
        if !pair.agrees(&held.pair()) {
            return Err(RuleCause::Differs);
        }
        Ok(())
    }

    fn may_assent(&self, sizes: Sizes, seat: Seat, view: View, pair: Pair) -> Result<(), RuleCause>
        ensures { result ≡ Rules.may_assent sizes self.now seat view pair }
    {
        self.may_second(view, pair)?;
        if entry(&self.round.assents, seat.number()).is_some() {
            return Err(RuleCause::Repeated);
        }
        if tally(&self.round.assents, &pair) >= 2 * sizes.faults() as usize {
            return Err(RuleCause::Repeated);
        }
        Ok(())
    }

    fn confirm_body(&self, pair: Pair) -> WholeBody
        ensures { result ≡ Rules.confirm_body self.now pair }
    {
        Body::Confirm {
            sender: self.seat,
            view: self.view,
            outcome: pair.outcome,
            digest: pair.digest,
        }
    }

    fn result_body(&self, pair: Pair) -> WholeBody
        ensures { result ≡ Rules.result_body self.now pair }
    {
        Body::Result {
            sender: self.seat,
            outcome: pair.outcome,
        }
    }

    // The basis is made, and the own confirm recorded.
    fn confirm_own(&mut self, proposal: Proposal, pair: Pair)
        ensures { self.new ≡ Rules.confirmed_own self.old proposal pair }
    {
        let basis = Basis {
            view: self.view,
            outcome: proposal.outcome,
            certificate: proposal.certificate,
            leader_seal: proposal.seal,
            assents: self.round.seals,
        };
        self.basis = Some(basis);
        let seat = self.seat;
        self.round.record_confirm(seat, pair);
    }

    // With 2f assents recorded the controller confirms.
    #[tactic(auto, unfolding(crate::specs::Rules::confirming))]
    fn confirming(&mut self, sizes: Sizes, pair: Pair) -> Bodies
        ensures { Rules.Follows self.old (Rules.confirming sizes self.old pair self.old.round.proposal) (Ok result) self.new }
    {
        let Some(held) = self.round.proposal else {
            return AtMostTwo::Nothing;
        };
        let confirm = self.confirm_body(pair);
        let result = self.result_body(pair);
        self.confirm_own(held, pair);
        if !self.conclude(sizes, pair) {
            return AtMostTwo::One(confirm);
        }
        AtMostTwo::Two(confirm, result)
    }

    // A controller assents to the held proposal.
    pub(crate) fn take_assent(
        &mut self,
        sizes: Sizes,
        seat: Seat,
        view: View,
        pair: Pair,
        seal: Seal,
    ) -> Reply
        ensures { Rules.Follows self.old (Rules.assent_rule sizes self.old seat view pair seal) result self.new }
    {
        self.may_assent(sizes, seat, view, pair)?;
        self.round.record_assent(seat, pair, seal);
        if tally(&self.round.assents, &pair) < 2 * sizes.faults() as usize {
            return Ok(AtMostTwo::Nothing);
        }
        Ok(self.confirming(sizes, pair))
    }

    fn may_confirm(&self, seat: Seat, view: View, pair: Pair) -> Result<(), RuleCause>
        ensures { result ≡ Rules.may_confirm self.now seat view pair }
    {
        self.may_second(view, pair)?;
        if entry(&self.round.confirms, seat.number()).is_some() {
            return Err(RuleCause::Repeated);
        }
        Ok(())
    }

    // A controller confirms the held proposal.
    pub(crate) fn take_confirm(&mut self, sizes: Sizes, seat: Seat, view: View, pair: Pair) -> Reply
        ensures { Rules.Follows self.old (Rules.confirm_rule sizes self.old seat view pair) result self.new }
    {
        self.may_confirm(seat, view, pair)?;
        self.round.record_confirm(seat, pair);
        let result = self.result_body(pair);
        if !self.conclude(sizes, pair) {
            return Ok(AtMostTwo::Nothing);
        }
        Ok(AtMostTwo::One(result))
    }

    // Enters a view: the round is forgotten, the own record stored with the own basis.
    fn enter_view(&mut self, view: View) -> Bodies
        ensures answer { Ok result ≡ Replies.sends (Rules.enter_view self.old view) }
        ensures unit { self.new ≡ Rules.entered self.old view }
    {
        let record = MoveRecord {
            view,
            basis: self.basis,
        };
        self.view = view;
        self.round = empty_round();
        put(&mut self.records, self.seat.number(), Some(record));
        AtMostTwo::One(Body::Move {
            sender: self.seat,
            view,
            basis: self.basis,
        })
    }

    fn may_move(&self, seat: Seat, view: View, basis: &Option<Basis>) -> Result<(), RuleCause>
        ensures { result ≡ Rules.may_move self.now seat view basis.now }
    {
        if view < self.view {
            return Err(RuleCause::OtherView);
        }
        if view == self.view && self.round.proposal.is_some() {
            return Err(RuleCause::OutOfTurn);
        }
        if names_from(entry(&self.records, seat.number()), view) {
            return Err(RuleCause::Repeated);
        }
        if false_basis(basis) {
            return Err(RuleCause::FalseResult);
        }
        Ok(())
    }

    pub(crate) fn record_count(&self, view: View) -> usize
        ensures { result ≡ Rules.record_count self.now view }
    {
        tally(&self.records, &MoveRecord { view, basis: None })
    }

    // A controller moved to a view: its record is replaced, and f + 1 of them carry this one along.
    pub(crate) fn take_move(
        &mut self,
        sizes: Sizes,
        seat: Seat,
        view: View,
        basis: Option<Basis>,
    ) -> Reply
        ensures { Rules.Follows self.old (Rules.move_rule sizes self.old seat view basis) result self.new }
    {
        self.may_move(seat, view, &basis)?;
        put(
            &mut self.records,
            seat.number(),
            Some(MoveRecord { view, basis }),
        );
        if self.view < view && self.record_count(view) >= sizes.faults() as usize + 1 {
            return Ok(self.enter_view(view));
        }
        Ok(AtMostTwo::Nothing)
    }

    // The view has lasted too long: the controller enters the next one.
    pub(crate) fn take_ring(&mut self) -> Reply
        ensures { Rules.Follows self.old (Rules.ring_rule self.old) result self.new }
    {
        let view = self.view.number();
        let next = view.checked_add(1).ok_or(RuleCause::LastView)?;
        Ok(self.enter_view(View::new(next)))
    }

    fn movers(&self, sizes: Sizes) -> SeatSet
        ensures { result ≡ Rules.movers sizes self.now }
    {
        if self.view.number() == 0 {
            return SeatSet(0);
        }
        pick(&self.records, self.view, sizes.quorum())
    }

    // What the leader proposes: the choice again, or its own order, registered places and votes.
    fn draft(&self, sizes: Sizes) -> Option<Draft>
        ensures { result ≡ Rules.draft_of sizes self.now }
    {
        let movers = self.movers(sizes);
        if let Some(basis) = self.choice(movers) {
            return Some(Draft {
                outcome: basis.outcome,
                certificate: basis.certificate,
                movers,
            });
        }
        self.own_draft(movers)
    }

    fn own_draft(&self, movers: SeatSet) -> Option<Draft>
        ensures { result ≡ Rules.own_draft self.now movers self.now.order }
    {
        let order = self.order?;
        let certificate = Certificate {
            order,
            enrolled: self.registered,
            votes: self.votes,
        };
        Some(Draft {
            outcome: certificate.result(),
            certificate,
            movers,
        })
    }

    pub(crate) fn may_propose(&self, sizes: Sizes, change: Change) -> Result<Draft, RuleCause>
        ensures { result ≡ Rules.may_propose sizes change self.now }
    {
        if !self.leads(sizes, change) {
            return Err(RuleCause::OutOfTurn);
        }
        if self.round.proposal.is_some() {
            return Err(RuleCause::Repeated);
        }
        if self.view.number() != 0 && self.record_count(self.view) < sizes.quorum() as usize {
            return Err(RuleCause::MoversMissing);
        }
        self.draft(sizes).ok_or(RuleCause::OutOfTurn)
    }
}
