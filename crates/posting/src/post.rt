// Seals up to two letters and writes them.
ghost use Rattle.std.specs.Prelude.{◌≡◌, ◌<◌, ◌≤◌, true, length, is_ok};
ghost use Rattle.letters.specs.Bodies.{letter};
ghost use Rattle.letters.specs.Bytes.{written};
ghost use Rattle.letters.specs.Layout.{layout};
ghost use Rattle.letters.specs.Ranges.{is_word};
ghost use Rattle.letters.specs.Sorts.{seal};
ghost use Rattle.seals.specs.Opening.{accepted, sender_borne};
ghost use Rattle.seals.specs.Scratch.{cleared, scratch_after};
ghost use Rattle.posting.specs.Posting.{seals_in, are_words, all_sealed, post_answer, post_buffer};
ghost use Rattle.posting.specs.declared.few.AtMostTwo.TheVariants.{One, Two};

use crate::few::{AtMostTwo, Posted, Seals};
use crate::replies::Bodies;
use letters::bodies::{Letter, WholeBody};
use letters::sorts::Seal;
use schemes::scheme::Scheme;
use seals::clearing::clear;
use seals::sealing::send;
use terms::numbers::Change;
use terms::refusals::{Refusal, no_room};
use writing::whole::length_of;

// How long a letter is, under whatever seal.
fn unsealed_length(change: Change, body: WholeBody) -> usize
    ensures { result ≡ length (layout (letter change body (seal 0))) }
{
    length_of(&Letter {
        change,
        body,
        seal: Seal(0),
    })
}

// Here and in the next two functions the scratch buffer has room: `post` tests that once for all, and hands on the
// whole buffer, which `send` takes.
// Seals one letter and writes it where there is room for it.
fn post_one<S: Scheme>(
    scheme: &S,
    change: Change,
    body: WholeBody,
    scratch: &mut [u8],
    out: &mut [u8],
) -> Seal
    requires { (24 ≤ length scratch.old) × (length (layout (letter change body (seal 0))) ≤ length out.old) }
    ensures word { is_word result.0 ≡ true }
    ensures as_long { length (layout (letter change body result)) ≡ length (layout (letter change body (seal 0))) }
    ensures sealed { accepted (S.Scheme.holds scheme.now) (sender_borne change body result) ≡ true }
    ensures output { out.new ≡ written (layout (letter change body result)) out.old }
    ensures scratch_cleared { scratch.new ≡ cleared scratch.old }
{
    match send(scheme, change, body, scratch, out) {
        Ok(sent) => sent.seal,
        Err(_) => unreachable(),
    }
}

fn post_alone<S: Scheme>(
    scheme: &S,
    change: Change,
    body: WholeBody,
    scratch: &mut [u8],
    out: &mut [u8],
) -> Result<Posted, Refusal>
    requires { 24 ≤ length scratch.old }
    ensures answer { result ≡ post_answer change (One body) (seals_in result) scratch.old out.old }
    ensures words { are_words (seals_in result) ≡ true }
    ensures sealed { is_ok result ≡ true → all_sealed (S.Scheme.holds scheme.now) change (One body) (seals_in result) ≡ true }
    ensures output { out.new ≡ post_buffer change (One body) (seals_in result) scratch.old out.old }
    ensures scratch_cleared { scratch.new ≡ scratch_after scratch.old }
{
    let length = unsealed_length(change, body);
    if out.len() < length {
        clear(scratch);
        return Err(no_room());
    }
    let seals = Seals {
        first: post_one(scheme, change, body, scratch, out),
        second: Seal(0),
    };
    Ok(Posted {
        lengths: AtMostTwo::One(length),
        seals,
    })
}

// The second letter goes into the tail of the output buffer, after the first.
#[tactic(auto, using(crate::proofs::Writes::cleared_twice))]
fn post_two<S: Scheme>(
    scheme: &S,
    change: Change,
    first: WholeBody,
    second: WholeBody,
    scratch: &mut [u8],
    out: &mut [u8],
) -> Result<Posted, Refusal>
    requires { 24 ≤ length scratch.old }
    ensures answer { result ≡ post_answer change (Two first second) (seals_in result) scratch.old out.old }
    ensures words { are_words (seals_in result) ≡ true }
    ensures sealed { is_ok result ≡ true → all_sealed (S.Scheme.holds scheme.now) change (Two first second) (seals_in result) ≡ true }
    ensures output { out.new ≡ post_buffer change (Two first second) (seals_in result) scratch.old out.old }
    ensures scratch_cleared { scratch.new ≡ scratch_after scratch.old }
{
    let length = unsealed_length(change, first);
    let second_length = unsealed_length(change, second);
    if out.len() < length || out.len() - length < second_length {
        clear(scratch);
        return Err(no_room());
    }
    let seals = Seals {
        first: post_one(scheme, change, first, scratch, out),
        second: post_one(scheme, change, second, scratch, &mut out[length..]),
    };
    Ok(Posted {
        lengths: AtMostTwo::Two(length, second_length),
        seals,
    })
}

// Seals the letters and writes them over the start of the output buffer, one right after
// the other. Where a buffer is too small, nothing is written. The scratch buffer is clear afterwards.
pub fn post<S: Scheme>(
    scheme: &S,
    change: Change,
    bodies: Bodies,
    scratch: &mut [u8],
    out: &mut [u8],
) -> Result<Posted, Refusal>
    ensures answer { result ≡ post_answer change bodies (seals_in result) scratch.old out.old }
    ensures words { are_words (seals_in result) ≡ true }
    ensures sealed { is_ok result ≡ true → all_sealed (S.Scheme.holds scheme.now) change bodies (seals_in result) ≡ true }
    ensures output { out.new ≡ post_buffer change bodies (seals_in result) scratch.old out.old }
    ensures scratch_cleared { scratch.new ≡ scratch_after scratch.old }
{
    if scratch.len() < 24 {
        return Err(no_room());
    }
    match bodies {
        AtMostTwo::Nothing => {
            clear(scratch);
            Ok(Posted {
                lengths: AtMostTwo::Nothing,
                seals: Seals {
                    first: Seal(0),
                    second: Seal(0),
                },
            })
        }
        AtMostTwo::One(body) => post_alone(scheme, change, body, scratch, out),
        AtMostTwo::Two(first, second) => { post_two(scheme, change, first, second, scratch, out) }
    }
}
