// Whole letters as bytes.
ghost use Rattle.std.specs.Prelude.{◌≡◌, ◌≤◌, [], ◌++◌, length};
ghost use Rattle.letters.specs.Layout.{layout};
ghost use Rattle.writing.specs.Longest.{longest_of, Suffices};
ghost use Rattle.writing.specs.Writing.{write_answer, both_answer, write_buffer};

use crate::bodies::{LetterDraft, put_body};
use crate::drafts::Draft;
use letters::bodies::WholeLetter;
use terms::refusals::{Refusal, no_room};
use terms::sizes::Sizes;

// All of a letter onto an empty draft. Never inlined, while `letter_draft` always is: so the draft is made where it
// is used, and its room is not copied out once more.
#[inline(never)]
fn put_letter(draft: &mut LetterDraft, letter: &WholeLetter)
    requires { draft.old ≡ [] }
    ensures { draft.new ≡ layout letter.now }
{
    put_body(draft, letter.change, &letter.body);
    draft.extend(&letter.seal.0.to_le_bytes());
}

// The one draft of a letter, onto which every part is put.
#[inline(always)]
fn letter_draft(letter: &WholeLetter) -> LetterDraft
    ensures { result ≡ layout letter.now }
{
    let mut draft = Draft::new();
    put_letter(&mut draft, letter);
    draft
}

// How many bytes the letter has.
pub fn length_of(letter: &WholeLetter) -> usize
    ensures { result ≡ length (layout letter.now) }
{
    letter_draft(letter).len()
}

// Writes the letter over the start of a buffer, and says how long it is. Where there is
// no room for all of it, nothing is written.
pub fn write(letter: &WholeLetter, out: &mut [u8]) -> Result<usize, Refusal>
    ensures answer { result ≡ write_answer (layout letter.now) out.old }
    ensures buffer { out.new ≡ write_buffer (layout letter.now) out.old }
{
    letter_draft(letter).write(out)
}

// Writes two letters, the second right after the first, and says how long each is. Where
// there is no room for both, nothing is written.
pub fn write_both(
    first: &WholeLetter,
    second: &WholeLetter,
    out: &mut [u8],
) -> Result<(usize, usize), Refusal>
    ensures answer { result ≡ both_answer (layout first.now) (layout second.now) out.old }
    ensures buffer { out.new ≡ write_buffer (layout first.now ++ layout second.now) out.old }
{
    let first = letter_draft(first);
    let second = letter_draft(second);
    if out.len() < first.len() + second.len() {
        return Err(no_room());
    }
    let n = first.write(out)?;
    // The second goes into the tail of the buffer, after the first.
    let m = second.write(&mut out[n..])?;
    Ok((n, m))
}

// So many bytes hold every letter within range of such a vault; 253 hold those of any.
#[tactic(auto, using(crate::proofs::Lengths::letter_length))]
pub fn longest(sizes: Sizes) -> usize
    ensures value { result ≡ longest_of sizes }
    ensures suffices { Suffices sizes result }
    ensures small { result ≤ 253 }
{
    let basis = 1 + 2 + 8 + 16 * sizes.faults() as usize;
    let certificate = 4 + 4 + 8 + 16 * sizes.locks() as usize;
    5 + 1 + 4 + basis + certificate + 8
}
