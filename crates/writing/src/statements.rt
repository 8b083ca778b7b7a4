// A statement's bytes.
ghost use Rattle.std.specs.Prelude.{◌≡◌};
ghost use Rattle.letters.specs.Statements.{place_byte, view_byte, number_word, digest_word, says_ready, flags_of, statement_bytes};
ghost use Rattle.writing.specs.Writing.{if_room, write_buffer};

use crate::drafts::Draft;
use letters::sorts::{Answer, Digest};
use letters::statements::Statement;
use terms::numbers::{KeyNumber, Place, View};
use terms::refusals::Refusal;

fn place_byte(place: Option<Place>) -> u8
    ensures { result ≡ place_byte place }
{
    place.map_or(0, |place| place.number())
}

fn view_byte(view: Option<View>) -> u8
    ensures { result ≡ view_byte view }
{
    view.map_or(0, |view| view.number())
}

fn number_word(number: Option<KeyNumber>) -> u32
    ensures { result ≡ number_word number }
{
    number.map_or(0, |number| number.value())
}

fn digest_word(digest: Option<Digest>) -> u64
    ensures { result ≡ digest_word digest }
{
    digest.map_or(0, |digest| digest.0)
}

fn says_ready(answer: Option<Answer>) -> bool
    ensures { result ≡ says_ready answer }
{
    answer.is_some_and(|answer| answer == Answer::Ready)
}

// 1 for a number, 2 for ready, 4 for a basis.
fn flags_of(statement: Statement) -> u8
    ensures { result ≡ flags_of statement }
{
    let number = u8::from(statement.number.is_some());
    let ready = u8::from(says_ready(statement.answer));
    let basis = u8::from(statement.basis.is_some());
    number + 2 * ready + 4 * basis
}

#[tactic(auto, unfolding(letters::specs::Statements::statement_bytes, letters::specs::Bytes::le4, letters::specs::Bytes::le8))]
fn statement_draft(statement: Statement) -> Draft<24>
    ensures { result ≡ statement_bytes statement }
{
    let kind = statement.kind.number();
    let change = (statement.change.number() % 256) as u8;
    let sender = (statement.sender.number() % 256) as u8;
    let place = place_byte(statement.place);
    let view = view_byte(statement.view);
    let flags = flags_of(statement);
    let mut draft = Draft::new();
    draft.extend(&[kind, change, sender, place, view, flags]);
    draft.extend(&number_word(statement.number).to_le_bytes());
    draft.extend(&[view_byte(statement.basis), 0, 0, 0, 0, 0]);
    draft.extend(&digest_word(statement.digest).to_le_bytes());
    draft
}

// Writes the statement's 24 bytes over the start of a buffer, or nothing if it is shorter.
pub fn stamp(statement: Statement, out: &mut [u8]) -> Result<(), Refusal>
    ensures answer { result ≡ if_room tt (statement_bytes statement) out.old }
    ensures buffer { out.new ≡ write_buffer (statement_bytes statement) out.old }
{
    statement_draft(statement).write(out)?;
    Ok(())
}
