// The rules of a controller: guards in order, then what it becomes and what it sends.
ghost use Rattle.std.specs.Prelude.{◌≡◌, ◌<◌};
ghost use Rattle.controllers.specs.Rules as Rules;

use crate::controller::Controller;
use ballots::{entry, put};
use letters::bodies::Body;
use letters::certificates::{Order, Vote};
use letters::sorts::{Answer, Seal};
use posting::few::AtMostTwo;
use posting::replies::{Bodies, Reply};
use terms::numbers::{KeyNumber, Place, Seat};
use terms::refusals::RuleCause;

fn may_order(held: Option<Order>, number: Option<KeyNumber>) -> Result<(), RuleCause>
    ensures { result ≡ Rules.may_order held number }
{
    let Some(held) = held else {
        return Ok(());
    };
    if held.number == number {
        return Err(RuleCause::Repeated);
    }
    Err(RuleCause::Differs)
}

fn summons(sender: Seat, number: Option<KeyNumber>, office_seal: Seal) -> Bodies
    ensures { result ≡ Rules.summons sender number office_seal }
{
    // Two arms: a conversion of an option into at most two would serve here alone.
    match number {
        None => AtMostTwo::Nothing,
        Some(number) => AtMostTwo::One(Body::Summons {
            sender,
            number,
            office_seal,
        }),
    }
}

fn ordered_number(order: Option<Order>) -> Option<KeyNumber>
    ensures { result ≡ Rules.ordered_number order }
{
    order.and_then(|order| order.number)
}

impl Controller {
    fn may_enrol(&self, place: Place) -> Result<(), RuleCause>
        ensures { result ≡ Rules.may_enrol self.now place }
    {
        if self.order.is_some() {
            return Err(RuleCause::OutOfTurn);
        }
        if entry(&self.registered, place.number()).is_some() {
            return Err(RuleCause::Repeated);
        }
        Ok(())
    }

    // A lock enrols: its place is registered.
    pub(crate) fn take_enrol(&mut self, place: Place, seal: Seal) -> Reply
        ensures { Rules.Follows self.old (Rules.enrol_rule self.old place seal) result self.new }
    {
        self.may_enrol(place)?;
        put(&mut self.registered, place.number(), Some(seal));
        Ok(AtMostTwo::One(Body::Receipt {
            sender: self.seat,
            place,
        }))
    }

    // The office orders: the order is held.
    pub(crate) fn take_order(&mut self, number: Option<KeyNumber>, seal: Seal) -> Reply
        ensures { Rules.Follows self.old (Rules.order_rule self.old number seal) result self.new }
    {
        may_order(self.order, number)?;
        self.order = Some(Order { number, seal });
        Ok(summons(self.seat, number, seal))
    }

    fn may_vote(&self, place: Place, number: KeyNumber) -> Result<(), RuleCause>
        ensures { result ≡ Rules.may_vote self.now place number }
    {
        let Some(ordered) = ordered_number(self.order) else {
            return Err(RuleCause::OutOfTurn);
        };
        if entry(&self.registered, place.number()).is_none() {
            return Err(RuleCause::OutOfTurn);
        }
        if ordered != number {
            return Err(RuleCause::Differs);
        }
        if entry(&self.votes, place.number()).is_some() {
            return Err(RuleCause::Repeated);
        }
        Ok(())
    }

    // A lock votes on the order: the vote is kept.
    pub(crate) fn take_vote(
        &mut self,
        place: Place,
        number: KeyNumber,
        answer: Answer,
        seal: Seal,
    ) -> Reply
        ensures { Rules.Follows self.old (Rules.vote_rule self.old place number answer seal) result self.new }
    {
        self.may_vote(place, number)?;
        put(&mut self.votes, place.number(), Some(Vote { answer, seal }));
        Ok(AtMostTwo::Nothing)
    }
}
