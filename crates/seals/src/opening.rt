// Opening a letter: form, then the sender's seal, then the seals inside it.
ghost use Rattle.std.specs.Prelude.{◌≡◌, ◌+◌, replicate};
ghost use Rattle.reading.specs.Parts.{shown};
ghost use Rattle.seals.specs.Opened.{opened_letter};
ghost use Rattle.seals.specs.Opening as Opening;
ghost use Rattle.seals.specs.Scratch.{scratch_after};

use crate::accepting::Judge;
use crate::guard::{Guard, Room};
use kept::keep;
use reading::parts::ReadLetter;
use reading::read;
use schemes::scheme::Scheme;
use terms::refusals::{Refusal, no_room};
use terms::sizes::Sizes;

// A letter whose form and seals were accepted. Only opening makes one; it is
// neither copied nor let go, so that one rule spends it.
pub struct Opened<'a> {
    letter: ReadLetter<'a>,
}

impl<'a> Opened<'a> {
    // Hands the letter over to the rule that it is for.
    pub fn spend(self) -> ReadLetter<'a>
        ensures { shown result ≡ shown self.entry.letter }
    {
        let Opened { letter } = self;
        letter
    }
}

// The letter in the bytes, if it has the form and bears accepted seals.
fn opening<'a, S: Scheme>(
    sizes: Sizes,
    scheme: &S,
    bytes: &'a [u8],
    room: &mut Room,
) -> Result<Opened<'a>, Refusal>
    ensures answer { opened_letter result ≡ Opening.opening sizes (S.Scheme.holds scheme.now) bytes.now }
    ensures room_cleared { room.new ≡ replicate 24 0 }
{
    let guard = Guard { room };
    let letter = read(sizes, bytes)?;
    let body = keep(letter.body);
    let judge = Judge {
        sizes,
        scheme,
        change: letter.change,
    };
    judge.accept_letter(guard.room, &body, letter.seal)?;
    Ok(Opened { letter })
}

#[tactic(auto, unfolding(crate::specs::Scratch::cleared))]
pub fn open<'a, S: Scheme>(
    sizes: Sizes,
    scheme: &S,
    bytes: &'a [u8],
    scratch: &mut [u8],
) -> Result<Opened<'a>, Refusal>
    ensures answer { opened_letter result ≡ Opening.open_answer sizes (S.Scheme.holds scheme.now) bytes.now scratch.old }
    ensures scratch_cleared { scratch.new ≡ scratch_after scratch.old }
{
    let Some(room) = scratch.first_chunk_mut::<24>() else {
        return Err(no_room());
    };
    opening(sizes, scheme, bytes, room)
}
