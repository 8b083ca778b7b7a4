// The calls of a lock.
ghost use Rattle.std.specs.Prelude.{◌≡◌};
ghost use Rattle.posting.specs.Calls as Calls;
ghost use Rattle.locks.specs.Rules as Rules;

use crate::lock::Lock;
use posting::finish::{answer, finish};
use posting::replies::CallResult;
use posting::room::require_room;
use schemes::scheme::Scheme;
use terms::numbers::Change;

impl Lock {
    // The lock enrols. It shares its two ends with declining; the rule between them would be a closure.
    pub fn enrol<S: Scheme>(
        &mut self,
        change: Change,
        scheme: &S,
        scratch: &mut [u8],
        out: &mut [u8],
    ) -> CallResult
        ensures call { Calls.Goes (S.Scheme.holds scheme.now) change self.old out.old scratch.old (λ _. Calls.pointed 0 (Rules.replied (Rules.enrol_rule self.old))) (Calls.went result self.new out.new scratch.new) }
        ensures room_suffices { Calls.RoomSuffices result out.old scratch.old }
    {
        require_room(out.len(), scratch.len())?;
        let reply = self.apply();
        answer(finish(scheme, change, reply, 0, scratch, out))
    }

    // The lock declines to take part.
    pub fn decline<S: Scheme>(
        &mut self,
        change: Change,
        scheme: &S,
        scratch: &mut [u8],
        out: &mut [u8],
    ) -> CallResult
        ensures call { Calls.Goes (S.Scheme.holds scheme.now) change self.old out.old scratch.old (λ _. Calls.pointed 0 (Rules.replied (Rules.decline_rule self.old))) (Calls.went result self.new out.new scratch.new) }
        ensures room_suffices { Calls.RoomSuffices result out.old scratch.old }
    {
        require_room(out.len(), scratch.len())?;
        let reply = self.take_decline();
        answer(finish(scheme, change, reply, 0, scratch, out))
    }
}
