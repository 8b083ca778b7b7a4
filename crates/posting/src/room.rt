// The room that every call of a unit asks for, and refusals by its rules.
ghost use Rattle.std.specs.Prelude.{◌≡◌};
ghost use Rattle.posting.specs.Calls.{room_answer, ruled};

use terms::refusals::{Cause, Refusal, RuleCause, no_room};

// 256 bytes of output buffer and 24 of scratch buffer, or a refusal.
pub fn require_room(out_length: usize, scratch_length: usize) -> Result<(), Refusal>
    ensures { result ≡ room_answer out_length scratch_length }
{
    if out_length < 256 || scratch_length < 24 {
        return Err(no_room());
    }
    Ok(())
}

// A refusal by a unit's rules: it points to the sender of the letter, or to 0 without one.
pub fn refused_by_rule(cause: RuleCause, sender: usize) -> Refusal
    ensures { result ≡ ruled cause sender }
{
    Refusal {
        cause: Cause::Rule(cause),
        place: sender,
    }
}
