// What the owner of a controller may do with it.
ghost use Rattle.std.specs.Prelude.{◌≡◌};
ghost use Rattle.terms.specs.Parties.{party_number};
ghost use Rattle.reading.specs.Parts.{shown};
ghost use Rattle.kept.specs.Kept.{kept};
ghost use Rattle.letters.specs.Senders.{sender_of};
ghost use Rattle.letters.specs.Sorts.{seal};
ghost use Rattle.posting.specs.Calls as Calls;
ghost use Rattle.posting.specs.Posting.{seals_in};
ghost use Rattle.posting.specs.Replies as Replies;
ghost use Rattle.controllers.specs.Letters as Letters;
ghost use Rattle.controllers.specs.Rules as Rules;

use crate::controller::{Controller, Draft, Proposal};
use crate::views::empty_round;
use kept::keep;
use letters::bodies::{Body, Letter};
use posting::few::{AtMostTwo, Posted};
use posting::finish::{answer, finish};
use posting::replies::{CallResult, Reply};
use posting::room::require_room;
use schemes::scheme::Scheme;
use seals::opening::Opened;
use terms::numbers::{Change, Seat, View};
use terms::parties::Outcome;
use terms::refusals::{Refusal, RuleCause};
use terms::sizes::Sizes;
use writing::certificates::certificate_digest;

impl Controller {
    // A new controller at its seat: nothing is registered, ordered, held or recorded.
    pub fn new(seat: Seat) -> Controller
        ensures { result ≡ Letters.fresh_controller seat }
    {
        Controller {
            seat,
            view: View::new(0),
            registered: [None; 8],
            order: None,
            votes: [None; 8],
            round: empty_round(),
            basis: None,
            records: [None; 16],
            result: None,
        }
    }

    pub fn view(&self) -> View
        ensures { result ≡ self.now.view }
    {
        self.view
    }

    // What the change comes to, once this controller knows.
    pub fn result(&self) -> Option<Outcome>
        ensures { result ≡ self.now.result }
    {
        self.result
    }

    // The view has lasted too long.
    #[tactic(auto, using(posting::proofs::Goes::goes_nowhere))]
    pub fn ring<S: Scheme>(
        &mut self,
        change: Change,
        scheme: &S,
        scratch: &mut [u8],
        out: &mut [u8],
    ) -> CallResult
        ensures { Calls.Goes (S.Scheme.holds scheme.now) change self.old out.old scratch.old (λ _. Calls.pointed 0 (Rules.ring_rule self.old)) (Calls.went result self.new out.new scratch.new) }
    {
        require_room(out.len(), scratch.len())?;
        let mut next = *self;
        let reply = next.take_ring();
        let posted = finish(scheme, change, reply, 0, scratch, out);
        self.store(next, &posted);
        answer(posted)
    }

    // What is sent of a draft; without one, why not.
    fn proposing(&self, draft: Result<Draft, RuleCause>) -> Reply
        ensures { result ≡ Replies.sends (Rules.proposing self.now draft (seal 0)) }
    {
        let draft = draft?;
        Ok(AtMostTwo::One(Body::Proposal {
            sender: self.seat,
            view: self.view,
            outcome: draft.outcome,
            certificate: draft.certificate,
            movers: draft.movers,
        }))
    }

    // The own proposal is held, with the seal that it was sent under.
    fn keep_proposal(&mut self, draft: Result<Draft, RuleCause>, posted: &Result<Posted, Refusal>)
        ensures { self.new ≡ Calls.keeping self.old (Replies.after self.old (Rules.proposing self.old draft (seals_in posted.now).first)) posted.now }
    {
        if let (Ok(draft), Ok(posted)) = (draft, posted) {
            self.hold(Proposal {
                outcome: draft.outcome,
                digest: certificate_digest(&draft.certificate),
                certificate: draft.certificate,
                seal: posted.seals.first,
            });
        }
    }

    // The leader of the view proposes.
    #[tactic(auto, using(posting::proofs::Goes::goes_nowhere))]
    pub fn propose<S: Scheme>(
        &mut self,
        sizes: Sizes,
        change: Change,
        scheme: &S,
        scratch: &mut [u8],
        out: &mut [u8],
    ) -> CallResult
        ensures { Calls.Goes (S.Scheme.holds scheme.now) change self.old out.old scratch.old (λ own. Calls.pointed 0 (Rules.propose_rule sizes change self.old own)) (Calls.went result self.new out.new scratch.new) }
    {
        require_room(out.len(), scratch.len())?;
        let draft = self.may_propose(sizes, change);
        let reply = self.proposing(draft);
        let posted = finish(scheme, change, reply, 0, scratch, out);
        self.keep_proposal(draft, &posted);
        answer(posted)
    }

    // Takes a letter that was opened: serves it, or refuses it.
    pub fn receive<S: Scheme>(
        &mut self,
        sizes: Sizes,
        change: Change,
        scheme: &S,
        opened: Opened,
        scratch: &mut [u8],
        out: &mut [u8],
    ) -> CallResult
        ensures { Calls.Goes (S.Scheme.holds scheme.now) change self.old out.old scratch.old (λ own. Calls.pointed (party_number (sender_of (kept (shown opened.entry.letter)).body)) (Letters.letter_rule sizes change self.old (kept (shown opened.entry.letter)) own)) (Calls.went result self.new out.new scratch.new) }
    {
        let letter = opened.spend();
        let letter = Letter {
            change: letter.change,
            body: keep(letter.body),
            seal: letter.seal,
        };
        self.serve(sizes, change, scheme, letter, scratch, out)
    }
}
