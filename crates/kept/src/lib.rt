// What a controller keeps of a letter's parts: the certificate or the basis in them.
#![tactic(auto)]

ghost use Rattle.std.specs.Prelude.{◌≡◌, ℕ, ◌+◌, ◌-◌, ◌*◌, ◌/◌, ◌%◌, ◌^◌, ◌<◌, ◌≤◌, List, length, count_ones, slice_index};
ghost use Rattle.letters.specs.Bytes.{two_at, four_at, eight_at, row_at, after_row, rows_at};
ghost use Rattle.kept.specs.Kept as Kept;
ghost use Rattle.letters.specs.Bodies.{retold};
ghost use Rattle.reading.specs.Parts.{span, spans};

use letters::bodies::WholeBody;
use letters::certificates::{Basis, Certificate, Order, Vote};
use letters::sorts::{Answer, Seal};
use reading::parts::{Grounds, Part, ReadBody};
use std::array;
use terms::numbers::{KeyNumber, View};

fn byte_at(bytes: &[u8], at: usize) -> u8
    ensures { result ≡ slice_index bytes.now at }
{
    bytes.get(at).copied().unwrap_or(0)
}

// Two, four and eight bytes at an offset, each of one line: a definition tells each number, and none the bytes
// alone. An offset within a letter is small, which is asked for here so that it can be added to.
fn two_at(bytes: &[u8], at: usize) -> u16
    requires { at < 1000 }
    ensures { result ≡ two_at bytes.now at }
{
    u16::from_le_bytes(array::from_fn(|k| byte_at(bytes, at + k)))
}

fn four_at(bytes: &[u8], at: usize) -> u32
    requires { at < 1000 }
    ensures { result ≡ four_at bytes.now at }
{
    u32::from_le_bytes(array::from_fn(|k| byte_at(bytes, at + k)))
}

fn eight_at(bytes: &[u8], at: usize) -> u64
    requires { at < 1000 }
    ensures { result ≡ eight_at bytes.now at }
{
    u64::from_le_bytes(array::from_fn(|k| byte_at(bytes, at + k)))
}

fn row_at(stands: bool, bytes: &[u8], at: usize) -> Option<Seal>
    requires { at < 1000 }
    ensures { result ≡ row_at stands bytes.now at }
{
    stands.then(|| Seal(eight_at(bytes, at)))
}

// The rows of a map: a seal for each bit that stands, read one after the other.
#[tactic(auto, using(crate::proofs::Rows::rows_more, crate::proofs::Rows::set_next), unfolding(letters::specs::Bytes::rows_at))]
fn read_rows(rows: &mut [Option<Seal>], map: u16, bytes: &[u8], from: usize)
    requires { (from < 500) × (length rows.old ≤ 16) }
    ensures { rows.new ≡ rows_at (length rows.old) map bytes.now from }
{
    let mut at = from;
    let mut left = map;
    for row in rows.iter_mut() {
        *row = row_at(left % 2 == 1, bytes, at);
        at = after_row(left % 2 == 1, at);
        left /= 2;
    }
}

fn after_row(stands: bool, at: usize) -> usize
    requires { at < 1000 }
    ensures place { result ≡ after_row stands at }
    ensures bound { result ≤ at + 8 }
{
    if stands { at + 8 } else { at }
}

fn vote_of(ready: bool, seal: Option<Seal>) -> Option<Vote>
    ensures { result ≡ Kept.vote_of ready seal }
{
    let answer = if ready { Answer::Ready } else { Answer::Refuse };
    seal.map(|seal| Vote { answer, seal })
}

// The votes: a seal for each place that voted, and a bit for each that is ready.
#[tactic(auto, unfolding(crate::specs::Kept::votes_of))]
fn read_votes(votes: &mut [Option<Vote>], ready: u8, seals: &[Option<Seal>])
    requires { length votes.old ≡ length seals.now }
    ensures { votes.new ≡ Kept.votes_of ready seals.now }
{
    let mut left = ready;
    // By index: after a loop over two lists what was written is not known to a proof.
    for (k, vote) in votes.iter_mut().enumerate() {
        *vote = vote_of(left % 2 == 1, seals[k]);
        left /= 2;
    }
}

fn order_in(bytes: &[u8]) -> Order
    ensures { result ≡ Kept.order_in bytes.now }
{
    if byte_at(bytes, 3) == 1 {
        Order {
            number: KeyNumber::new(four_at(bytes, 4)),
            seal: Seal(eight_at(bytes, 8)),
        }
    } else {
        Order {
            number: None,
            seal: Seal(eight_at(bytes, 4)),
        }
    }
}

fn enrolments_at(bytes: &[u8]) -> usize
    ensures place { result ≡ Kept.enrolments_at bytes.now }
    ensures bound { result ≤ 16 }
{
    if byte_at(bytes, 3) == 1 { 16 } else { 12 }
}

// The offset after a seal for each bit of a map.
fn past_seals(map: u8, from: usize) -> usize
    requires { from ≤ 16 }
    ensures place { result ≡ from + count_ones map * 8 }
    ensures bound { result ≤ 80 }
{
    from + map.count_ones() as usize * 8
}

// The certificate in a part of a letter.
pub fn certificate_in(part: Part) -> Certificate
    ensures { result ≡ Kept.certificate_in part.entry.bytes.now }
{
    let bytes = part.bytes;
    let from = enrolments_at(bytes);
    let mut enrolled = [None; 8];
    read_rows(&mut enrolled, byte_at(bytes, 0) as u16, bytes, from);
    let voted_from = past_seals(byte_at(bytes, 0), from);
    let mut seals = [None; 8];
    read_rows(&mut seals, byte_at(bytes, 1) as u16, bytes, voted_from);
    let mut votes = [None; 8];
    read_votes(&mut votes, byte_at(bytes, 2), &seals);
    Certificate {
        order: order_in(bytes),
        enrolled,
        votes,
    }
}

// The basis in the parts of a move.
pub fn basis_in(grounds: Grounds) -> Basis
    ensures { result ≡ Kept.basis_in (spans grounds.entry) }
{
    let bytes = grounds.basis.bytes;
    let mut assents = [None; 16];
    read_rows(&mut assents, two_at(bytes, 1), bytes, 11);
    Basis {
        view: View::new(byte_at(bytes, 0)),
        outcome: grounds.outcome,
        certificate: certificate_in(grounds.certificate),
        leader_seal: Seal(eight_at(bytes, 3)),
        assents,
    }
}

// What a letter that was read says, with its certificate and its basis as values.
pub fn keep(body: ReadBody) -> WholeBody
    ensures { result ≡ Kept.kept_body (retold span spans body.entry) }
{
    body.retold(certificate_in, basis_in)
}
