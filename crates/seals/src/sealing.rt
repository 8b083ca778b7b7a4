// Sealing a letter, and sending it.
ghost use Rattle.std.specs.Prelude.{◌≡◌, ℕ, ◌+◌, ◌<◌, ◌≤◌, Bool, true, length, is_ok, replicate};
ghost use Rattle.letters.specs.Bodies.{letter};
ghost use Rattle.letters.specs.Bytes.{written};
ghost use Rattle.letters.specs.Layout.{layout};
ghost use Rattle.letters.specs.Sorts.{seal};
ghost use Rattle.seals.specs.Opening.{accepted, sender_borne};
ghost use Rattle.seals.specs.Scratch.{roomy, cleared, scratch_after};
ghost use Rattle.seals.specs.Sealing.{seal_in, seal_answer, seal_of, send_answer, send_buffer, send_scratch};

use crate::accepting::sender_borne;
use crate::guard::{Guard, Room, make_seal};
use letters::bodies::{Letter, WholeBody, WholeLetter};
use letters::sorts::Seal;
use schemes::scheme::Scheme;
use terms::numbers::Change;
use terms::refusals::{Refusal, no_room};
use writing::whole::{length_of, write};

// What was sent: how many bytes, under which seal.
#[derive(Clone, Copy)]
pub struct Sent {
    pub length: usize,
    pub seal: Seal,
}

// The sender's seal on what the letter says.
fn sender_seal<S: Scheme>(scheme: &S, change: Change, body: &WholeBody, room: &mut Room) -> Seal
    ensures sealed { accepted (S.Scheme.holds scheme.now) (sender_borne change body.now result) ≡ true }
    ensures room_cleared { room.new ≡ replicate 24 0 }
{
    let guard = Guard { room };
    let unsealed = sender_borne(change, body, Seal(0));
    make_seal(scheme, guard.room, unsealed.party, unsealed.statement)
}

// The letter under its sender's seal.
#[tactic(auto, unfolding(crate::specs::Scratch::cleared))]
pub fn seal_letter<S: Scheme>(
    scheme: &S,
    change: Change,
    body: WholeBody,
    scratch: &mut [u8],
) -> Result<WholeLetter, Refusal>
    ensures answer { result ≡ seal_answer change body (seal_in result) scratch.old }
    ensures sealed { roomy scratch.old ≡ true → accepted (S.Scheme.holds scheme.now) (sender_borne change body (seal_in result)) ≡ true }
    ensures scratch_cleared { scratch.new ≡ scratch_after scratch.old }
{
    let Some(room) = scratch.first_chunk_mut::<24>() else {
        return Err(no_room());
    };
    let seal = sender_seal(scheme, change, &body, room);
    Ok(Letter { change, body, seal })
}

// Seals the letter and writes it, where both buffers have room. Under another
// seal it is as long.
fn seal_into<S: Scheme>(
    scheme: &S,
    change: Change,
    body: &WholeBody,
    room: &mut Room,
    out: &mut [u8],
) -> Seal
    requires { length (layout (letter change body.now (seal 0))) ≤ length out.old }
    ensures as_long { length (layout (letter change body.now result)) ≡ length (layout (letter change body.now (seal 0))) }
    ensures sealed { accepted (S.Scheme.holds scheme.now) (sender_borne change body.now result) ≡ true }
    ensures output { out.new ≡ written (layout (letter change body.now result)) out.old }
    ensures room_cleared { room.new ≡ replicate 24 0 }
{
    let seal = sender_seal(scheme, change, body, room);
    let letter = Letter {
        change,
        body: *body,
        seal,
    };
    let _ = write(&letter, out);
    seal
}

// Seals the letter and writes it over the start of the output buffer. Where a
// buffer is too small, nothing is touched.
#[tactic(auto, unfolding(crate::specs::Scratch::cleared))]
pub fn send<S: Scheme>(
    scheme: &S,
    change: Change,
    body: WholeBody,
    scratch: &mut [u8],
    out: &mut [u8],
) -> Result<Sent, Refusal>
    ensures answer { result ≡ send_answer (letter change body (seal_of result)) scratch.old out.old }
    ensures sealed { is_ok result ≡ true → accepted (S.Scheme.holds scheme.now) (sender_borne change body (seal_of result)) ≡ true }
    ensures output { out.new ≡ send_buffer (letter change body (seal_of result)) scratch.old out.old }
    ensures scratch_cleared { scratch.new ≡ send_scratch (letter change body (seal_of result)) scratch.old out.old }
{
    // Before the letter is laid out; the room itself is lent once both buffers are known to do.
    if scratch.len() < 24 {
        return Err(no_room());
    }
    let unsealed = Letter {
        change,
        body,
        seal: Seal(0),
    };
    let length = length_of(&unsealed);
    if out.len() < length {
        return Err(no_room());
    }
    let Some(room) = scratch.first_chunk_mut::<24>() else {
        return Err(no_room());
    };
    let seal = seal_into(scheme, change, &body, room, out);
    Ok(Sent { length, seal })
}
