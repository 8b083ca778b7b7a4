// A letter handed to a controller.
ghost use Rattle.std.specs.Prelude.{◌≡◌, true};
ghost use Rattle.terms.specs.Parties.{party_number};
ghost use Rattle.letters.specs.Senders.{sender_of};
ghost use Rattle.posting.specs.Calls as Calls;
ghost use Rattle.posting.specs.Posting.{seals_in};
ghost use Rattle.posting.specs.Replies as Replies;
ghost use Rattle.controllers.specs.Letters as Letters;
ghost use Rattle.controllers.specs.Rules as Rules;

use crate::controller::{Controller, Proposal};
use ballots::Pair;
use letters::bodies::{Body, WholeBody, WholeLetter};
use letters::senders::sender_number;
use letters::sorts::{Seal, SeatSet};
use posting::few::{AtMostTwo, Posted};
use posting::finish::{answer, finish};
use posting::replies::{CallResult, Reply};
use posting::room::{refused_by_rule, require_room};
use schemes::scheme::Scheme;
use seals::clearing::clear;
use terms::numbers::{Change, View};
use terms::refusals::{Refusal, RuleCause};
use terms::sizes::Sizes;
use writing::certificates::certificate_digest;

impl Controller {
    // Keeps what the controller has become, unless the call is refused.
    pub(crate) fn store(&mut self, next: Controller, posted: &Result<Posted, Refusal>)
        ensures { self.new ≡ Calls.keeping self.old next posted.now }
    {
        if posted.is_ok() {
            *self = next;
        }
    }

    // Holds a proposal, unless the call is refused. It has assented to it: that is recorded with the
    // seal that the assent was sent under.
    fn store_taken(&mut self, proposal: &Proposal, posted: &Result<Posted, Refusal>)
        ensures { self.new ≡ Calls.keeping self.old (Rules.held self.old proposal.now (seals_in posted.now).first) posted.now }
    {
        if let Ok(posted) = posted {
            self.hold(*proposal);
            self.record_own_assent(posted.seals.first);
        }
    }

    // All kinds of letters but proposals, by the rule of the body's kind.
    fn take_body(&mut self, sizes: Sizes, body: WholeBody, seal: Seal) -> Reply
        ensures { Rules.Follows self.old (Letters.plain_rule sizes self.old body seal) result self.new }
    {
        match body {
            Body::Enrol { sender } => self.take_enrol(sender, seal),
            Body::Order { number } => self.take_order(number, seal),
            Body::Vote {
                sender,
                number,
                answer,
            } => self.take_vote(sender, number, answer, seal),
            Body::Assent {
                sender,
                view,
                outcome,
                digest,
            } => self.take_assent(sizes, sender, view, Pair { outcome, digest }, seal),
            Body::Confirm {
                sender,
                view,
                outcome,
                digest,
            } => self.take_confirm(sizes, sender, view, Pair { outcome, digest }),
            Body::Move {
                sender,
                view,
                basis,
            } => self.take_move(sizes, sender, view, basis),
            _ => Err(RuleCause::OtherUnit),
        }
    }

    // Works on a copy, which is stored once all that is to be sent is posted.
    fn serve_plain<S: Scheme>(
        &mut self,
        sizes: Sizes,
        change: Change,
        scheme: &S,
        body: &WholeBody,
        seal: Seal,
        sender: usize,
        scratch: &mut [u8],
        out: &mut [u8],
    ) -> CallResult
        requires { Calls.has_room out.old scratch.old ≡ true }
        ensures { Calls.Goes (S.Scheme.holds scheme.now) change self.old out.old scratch.old (λ _. Calls.pointed sender (Letters.plain_rule sizes self.old body.now seal)) (Calls.went result self.new out.new scratch.new) }
    {
        let mut next = *self;
        let reply = next.take_body(sizes, *body, seal);
        let posted = finish(scheme, change, reply, sender, scratch, out);
        self.store(next, &posted);
        answer(posted)
    }

    // What is sent of a proposal, before it is held: the assent to it, if it may be.
    fn assenting(
        &self,
        sizes: Sizes,
        change: Change,
        view: View,
        movers: SeatSet,
        proposal: &Proposal,
    ) -> Reply
        ensures { result ≡ Replies.sends (Rules.holding sizes change self.now view movers proposal.now) }
    {
        self.may_hold(sizes, change, view, movers, proposal)?;
        Ok(AtMostTwo::One(Body::Assent {
            sender: self.seat,
            view: self.view,
            outcome: proposal.outcome,
            digest: proposal.digest,
        }))
    }

    // Works in place, with no copy of the controller: a proposal is held once the assent to it is posted.
    fn serve_proposal<S: Scheme>(
        &mut self,
        sizes: Sizes,
        change: Change,
        scheme: &S,
        view: View,
        movers: SeatSet,
        proposal: &Proposal,
        sender: usize,
        scratch: &mut [u8],
        out: &mut [u8],
    ) -> CallResult
        requires { Calls.has_room out.old scratch.old ≡ true }
        ensures { Calls.Goes (S.Scheme.holds scheme.now) change self.old out.old scratch.old (λ own. Calls.pointed sender (Rules.judged sizes change self.old view movers proposal.now own)) (Calls.went result self.new out.new scratch.new) }
    {
        let reply = self.assenting(sizes, change, view, movers, proposal);
        let posted = finish(scheme, change, reply, sender, scratch, out);
        self.store_taken(proposal, &posted);
        answer(posted)
    }

    // A letter of this change.
    fn serve_body<S: Scheme>(
        &mut self,
        sizes: Sizes,
        change: Change,
        scheme: &S,
        letter: &WholeLetter,
        sender: usize,
        scratch: &mut [u8],
        out: &mut [u8],
    ) -> CallResult
        requires { Calls.has_room out.old scratch.old ≡ true }
        ensures { Calls.Goes (S.Scheme.holds scheme.now) change self.old out.old scratch.old (λ own. Calls.pointed sender (Letters.body_rule sizes change self.old letter.now.body letter.now.seal own)) (Calls.went result self.new out.new scratch.new) }
    {
        let seal = letter.seal;
        let Body::Proposal {
            sender: _,
            view,
            outcome,
            certificate,
            movers,
        } = letter.body
        else {
            return self.serve_plain(
                sizes,
                change,
                scheme,
                &letter.body,
                seal,
                sender,
                scratch,
                out,
            );
        };
        let proposal = Proposal {
            outcome,
            digest: certificate_digest(&certificate),
            certificate,
            seal,
        };
        self.serve_proposal(
            sizes, change, scheme, view, movers, &proposal, sender, scratch, out,
        )
    }

    // Serves a letter that was opened, or refuses it: 7 for a letter of another change, before its
    // kind is looked at.
    #[tactic(auto, using(posting::proofs::Goes::goes_nowhere))]
    pub(crate) fn serve<S: Scheme>(
        &mut self,
        sizes: Sizes,
        change: Change,
        scheme: &S,
        letter: WholeLetter,
        scratch: &mut [u8],
        out: &mut [u8],
    ) -> CallResult
        ensures { Calls.Goes (S.Scheme.holds scheme.now) change self.old out.old scratch.old (λ own. Calls.pointed (party_number (sender_of letter.body)) (Letters.letter_rule sizes change self.old letter own)) (Calls.went result self.new out.new scratch.new) }
    {
        require_room(out.len(), scratch.len())?;
        let sender = sender_number(&letter.body);
        if letter.change != change {
            clear(scratch);
            return Err(refused_by_rule(RuleCause::OtherChange, sender));
        }
        self.serve_body(sizes, change, scheme, &letter, sender, scratch, out)
    }
}
