// A certificate's bytes, and their digest.
ghost use Rattle.std.specs.Prelude.{◌≡◌, ◌+◌, ◌≤◌, ◌++◌, length};
ghost use Rattle.letters.specs.Certificates.{order_flag, number_bytes, certificate_bytes, certificate_digest};

use crate::drafts::Draft;
use crate::maps::map_of;
use letters::certificates::Certificate;
use letters::digests::digest_of;
use letters::sorts::{Answer, Digest};
use terms::numbers::KeyNumber;

fn order_flag(number: Option<KeyNumber>) -> u8
    ensures { result ≡ order_flag number }
{
    u8::from(number.is_some())
}

// The number, if there is one.
pub(crate) fn put_number<const N: usize>(draft: &mut Draft<N>, number: Option<KeyNumber>)
    requires { length draft.old + 4 ≤ N }
    ensures joined { draft.new ≡ draft.old ++ number_bytes number }
    ensures within { length draft.new ≤ length draft.old + 4 }
{
    if let Some(number) = number {
        draft.extend(&number.value().to_le_bytes());
    }
}

// A certificate: 4 bytes, a number, and 17 seals at most.
pub(crate) fn put_certificate<const N: usize>(draft: &mut Draft<N>, certificate: &Certificate)
    requires { length draft.old + 144 ≤ N }
    ensures joined { draft.new ≡ draft.old ++ certificate_bytes certificate.now }
    ensures within { length draft.new ≤ length draft.old + 144 }
{
    let enrolled = map_of(&certificate.enrolled, |row| row.is_some()) as u8;
    let voted = map_of(&certificate.votes, |row| row.is_some()) as u8;
    let ready = map_of(
        &certificate.votes,
        |row| row.is_some_and(|vote| vote.answer == Answer::Ready),
    ) as u8;
    let order = certificate.order;
    draft.extend(&[enrolled, voted, ready, order_flag(order.number)]);
    put_number(draft, order.number);
    draft.extend(&order.seal.0.to_le_bytes());
    draft.extend_rows(&certificate.enrolled, |row| *row);
    draft.extend_rows(&certificate.votes, |row| row.map(|vote| vote.seal));
}

// The digest of a certificate is that of its bytes.
pub fn certificate_digest(certificate: &Certificate) -> Digest
    ensures { result ≡ certificate_digest certificate.now }
{
    let mut draft = Draft::<144>::new();
    put_certificate(&mut draft, certificate);
    digest_of(draft.as_slice())
}
