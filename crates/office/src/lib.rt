// The office, by its rule.
#![tactic(auto)]

ghost use Rattle.std.specs.Prelude.{◌≡◌, false};
ghost use Rattle.office.specs.Rules as Rules;
ghost use Rattle.posting.specs.Calls as Calls;
ghost use Rattle.posting.specs.Replies as Replies;

use letters::bodies::Body;
use posting::few::AtMostTwo;
use posting::finish::{answer, finish};
use posting::replies::{CallResult, Reply};
use posting::room::require_room;
use schemes::scheme::Scheme;
use seals::clearing::clear;
use terms::numbers::{Change, KeyNumber};
use terms::refusals::{CallCause, Cause, Refusal, RuleCause};

// The office orders one time: a number for all doors, or that the change is cancelled.
#[derive(Clone, Copy)]
pub struct Office {
    ordered: bool,
}

impl Office {
    // An office that has not ordered.
    pub fn new() -> Office
        ensures { result ≡ Rules.office false }
    {
        Office { ordered: false }
    }

    pub fn has_ordered(&self) -> bool
        ensures { result ≡ self.now.ordered }
    {
        self.ordered
    }

    fn take_order(&mut self, number: Option<KeyNumber>) -> Reply
        ensures answer { result ≡ Replies.sends (Rules.order_rule self.old number) }
        ensures unit { self.new ≡ Replies.after self.old (Rules.order_rule self.old number) }
    {
        if self.ordered {
            return Err(RuleCause::Repeated);
        }
        self.ordered = true;
        Ok(AtMostTwo::One(Body::Order { number }))
    }

    // Orders a key number, or a cancel.
    #[tactic(auto, using(posting::proofs::Goes::goes_nowhere))]
    fn order_key<S: Scheme>(
        &mut self,
        change: Change,
        scheme: &S,
        number: Option<KeyNumber>,
        scratch: &mut [u8],
        out: &mut [u8],
    ) -> CallResult
        ensures { Calls.Goes (S.Scheme.holds scheme.now) change self.old out.old scratch.old (λ _. Calls.pointed 0 (Rules.order_rule self.old number)) (Calls.went result self.new out.new scratch.new) }
    {
        require_room(out.len(), scratch.len())?;
        let reply = self.take_order(number);
        answer(finish(scheme, change, reply, 0, scratch, out))
    }

    // Orders a number for all doors; without a number, that the change is cancelled.
    #[tactic(auto, using(posting::proofs::Goes::goes_nowhere))]
    pub fn order<S: Scheme>(
        &mut self,
        change: Change,
        scheme: &S,
        number: Option<u32>,
        scratch: &mut [u8],
        out: &mut [u8],
    ) -> CallResult
        ensures { Calls.Goes (S.Scheme.holds scheme.now) change self.old out.old scratch.old (λ _. Rules.order_reply self.old number) (Calls.went result self.new out.new scratch.new) }
    {
        let Some(number) = number else {
            return self.order_key(change, scheme, None, scratch, out);
        };
        if let Some(key) = KeyNumber::new(number) {
            return self.order_key(change, scheme, Some(key), scratch, out);
        }
        require_room(out.len(), scratch.len())?;
        clear(scratch);
        Err(Refusal {
            cause: Cause::Call(CallCause::NumberOutOfRange),
            place: 0,
        })
    }
}
