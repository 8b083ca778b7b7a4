// The rules of a lock: guards in order, then what it becomes and what it sends.
ghost use Rattle.std.specs.Prelude.{◌≡◌, ◌+◌, ◌<◌};
ghost use Rattle.locks.specs.Rules as Rules;

use crate::lock::{Lock, Standing};
use ballots::{Receipted, entry, put, tally};
use boards::board::Board;
use letters::bodies::Body;
use letters::sorts::Answer;
use posting::few::AtMostTwo;
use posting::replies::Reply;
use terms::numbers::{KeyNumber, Place, Seat};
use terms::parties::Outcome;
use terms::refusals::RuleCause;
use terms::sizes::Sizes;

impl Lock {
    // A function for each guard that the rules name, though this and declining differ in a standing alone.
    fn may_apply(&self) -> Result<(), RuleCause>
        ensures { result ≡ Rules.may_apply self.now }
    {
        if self.standing != Standing::New {
            return Err(RuleCause::OutOfTurn);
        }
        Ok(())
    }

    // The lock enrols: it applies.
    pub(crate) fn apply(&mut self) -> Reply
        ensures { Rules.Follows self.old (Rules.enrol_rule self.old) result self.new }
    {
        self.may_apply()?;
        self.standing = Standing::Applied;
        Ok(AtMostTwo::One(Body::Enrol { sender: self.place }))
    }

    fn may_receipt(&self, seat: Seat, place: Place) -> Result<(), RuleCause>
        ensures { result ≡ Rules.may_receipt self.now seat place }
    {
        if place != self.place {
            return Err(RuleCause::Differs);
        }
        if self.standing == Standing::New {
            return Err(RuleCause::OutOfTurn);
        }
        if entry(&self.receipts, seat.number()).is_some() || self.standing > Standing::Applied {
            return Err(RuleCause::Repeated);
        }
        Ok(())
    }

    // A controller has the lock on its list; a quorum of them enrols it.
    pub(crate) fn take_receipt(&mut self, sizes: Sizes, seat: Seat, place: Place) -> Reply
        ensures { Rules.Follows self.old (Rules.receipt_rule sizes self.old seat place) result self.new }
    {
        self.may_receipt(seat, place)?;
        put(&mut self.receipts, seat.number(), Some(Receipted));
        if tally(&self.receipts, &Receipted) >= sizes.quorum() as usize {
            self.standing = Standing::Enrolled;
        }
        Ok(AtMostTwo::Nothing)
    }

    fn may_decline(&self) -> Result<(), RuleCause>
        ensures { result ≡ Rules.may_decline self.now }
    {
        if self.standing != Standing::Enrolled {
            return Err(RuleCause::OutOfTurn);
        }
        Ok(())
    }

    // The lock will not take part: it keeps its number.
    pub(crate) fn take_decline(&mut self) -> Reply
        ensures { Rules.Follows self.old (Rules.decline_rule self.old) result self.new }
    {
        self.may_decline()?;
        self.standing = Standing::Kept;
        Ok(AtMostTwo::Nothing)
    }

    fn may_summon(&self) -> Result<(), RuleCause>
        ensures { result ≡ Rules.may_summon self.now }
    {
        if self.standing < Standing::Enrolled {
            return Err(RuleCause::OutOfTurn);
        }
        if self.standing > Standing::Enrolled {
            return Err(RuleCause::Repeated);
        }
        Ok(())
    }

    // A controller tells of an order: the lock stages the number, or refuses it.
    pub(crate) fn take_summons<B: Board>(&mut self, board: &mut B, number: KeyNumber) -> Reply
        ensures follows { Rules.Follows self.old (Rules.summons_rule self.old (B.Board.meaning board.old) number) result self.new }
        ensures board { B.Board.meaning board.new ≡ Rules.board_after (B.Board.meaning board.old) self.old.place (Rules.summons_rule self.old (B.Board.meaning board.old) number) }
    {
        self.may_summon()?;
        let sender = self.place;
        if board.stage(sender, number) {
            self.standing = Standing::Ready;
            return Ok(AtMostTwo::One(Body::Vote {
                sender,
                number,
                answer: Answer::Ready,
            }));
        }
        self.standing = Standing::Kept;
        Ok(AtMostTwo::One(Body::Vote {
            sender,
            number,
            answer: Answer::Refuse,
        }))
    }

    fn may_result(
        &self,
        staged: Option<KeyNumber>,
        seat: Seat,
        outcome: Outcome,
    ) -> Result<(), RuleCause>
        ensures { result ≡ Rules.may_result_with self.now staged seat outcome }
    {
        if self.standing < Standing::Enrolled {
            return Err(RuleCause::OutOfTurn);
        }
        if self.standing > Standing::Ready {
            return Err(RuleCause::Repeated);
        }
        if outcome != Outcome::Keep && self.standing == Standing::Enrolled {
            return Err(RuleCause::OutOfTurn);
        }
        if strange(staged, outcome) {
            return Err(RuleCause::Differs);
        }
        if entry(&self.results, seat.number()).is_some() {
            return Err(RuleCause::Repeated);
        }
        Ok(())
    }

    // Ends the lock: it takes the staged number over, or drops it.
    fn end<B: Board>(&mut self, board: &mut B, outcome: Outcome)
        ensures lock { self.new ≡ Rules.lock_after self.old (Rules.ended_by self.old outcome) }
        ensures board { B.Board.meaning board.new ≡ Rules.board_after (B.Board.meaning board.old) self.old.place (Rules.ended_by self.old outcome) }
    {
        match outcome {
            Outcome::Keep => {
                board.drop_staged(self.place);
                self.standing = Standing::Kept;
            }
            Outcome::Number(_) => {
                board.take_over(self.place);
                self.standing = Standing::Changed;
            }
        }
    }

    // A controller tells of the result: f + 1 that agree end the lock.
    pub(crate) fn take_result<B: Board>(
        &mut self,
        sizes: Sizes,
        board: &mut B,
        seat: Seat,
        outcome: Outcome,
    ) -> Reply
        ensures follows { Rules.Follows self.old (Rules.result_rule sizes self.old (B.Board.meaning board.old) seat outcome) result self.new }
        ensures board { B.Board.meaning board.new ≡ Rules.board_after (B.Board.meaning board.old) self.old.place (Rules.result_rule sizes self.old (B.Board.meaning board.old) seat outcome) }
    {
        self.may_result(board.staged(self.place), seat, outcome)?;
        put(&mut self.results, seat.number(), Some(outcome));
        if tally(&self.results, &outcome) < sizes.faults() as usize + 1 {
            return Ok(AtMostTwo::Nothing);
        }
        self.end(board, outcome);
        Ok(AtMostTwo::Nothing)
    }
}

// Neither keep nor the staged number.
fn strange(staged: Option<KeyNumber>, outcome: Outcome) -> bool
    ensures { result ≡ Rules.strange staged outcome }
{
    match outcome {
        Outcome::Keep => false,
        Outcome::Number(number) => staged != Some(number),
    }
}
