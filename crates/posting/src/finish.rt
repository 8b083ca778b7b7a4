// The end of a call of a unit. What a call is lent, scheme, scratch and output buffer, is lent in parameters of its
// own all the way: the rule of the calls on a vault, where board and scheme are never in one struct with slices.
ghost use Rattle.std.specs.Prelude.{◌≡◌, true, is_ok};
ghost use Rattle.posting.specs.Calls as Calls;
ghost use Rattle.posting.specs.Posting.{seals_in, are_words};

use crate::few::Posted;
use crate::post::post;
use crate::replies::{CallResult, Reply};
use crate::room::refused_by_rule;
use schemes::scheme::Scheme;
use seals::clearing::clear;
use terms::numbers::Change;
use terms::refusals::Refusal;

// Answers what a rule replied: posts what is to be sent, or refuses. The scratch buffer
// is clear afterwards.
pub fn finish<S: Scheme>(
    scheme: &S,
    change: Change,
    reply: Reply,
    sender: usize,
    scratch: &mut [u8],
    out: &mut [u8],
) -> Result<Posted, Refusal>
    ensures ends { Calls.ending result out.new scratch.new ≡ Calls.ended change sender reply (seals_in result) out.old scratch.old }
    ensures words { are_words (seals_in result) ≡ true }
    ensures sealed { is_ok result ≡ true → Calls.sent_sealed (S.Scheme.holds scheme.now) change reply (seals_in result) ≡ true }
{
    match reply {
        Ok(bodies) => post(scheme, change, bodies, scratch, out),
        Err(cause) => {
            clear(scratch);
            Err(refused_by_rule(cause, sender))
        }
    }
}

// What a caller is told of it.
pub fn answer(posted: Result<Posted, Refusal>) -> CallResult
    ensures { result ≡ Calls.answered posted }
{
    posted.map(|posted| posted.lengths)
}
