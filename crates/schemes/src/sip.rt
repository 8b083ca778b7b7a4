// SipHash-2-4.
ghost use Rattle.std.specs.Prelude.{◌≡◌, ℕ, ◌+◌, ◌-◌, ◌*◌, ◌/◌, ◌%◌, ◌^◌, ◌<◌, ◌≤◌, length, slice_index};
ghost use Rattle.letters.specs.Bytes.{eight_at};
ghost use Rattle.schemes.specs.Sip as Sip;

use std::array;

#[derive(Clone, Copy)]
pub struct State {
    v0: u64,
    v1: u64,
    v2: u64,
    v3: u64,
}

#[tactic(auto, unfolding(crate::specs::Sip::first))]
fn first_half(s: State) -> State
    ensures { result ≡ Sip.first s }
{
    let a = s.v0.wrapping_add(s.v1);
    let c = s.v2.wrapping_add(s.v3);
    State {
        v0: a.rotate_left(32),
        v1: s.v1.rotate_left(13) ^ a,
        v2: c,
        v3: s.v3.rotate_left(16) ^ c,
    }
}

#[tactic(auto, unfolding(crate::specs::Sip::second))]
fn second_half(s: State) -> State
    ensures { result ≡ Sip.second s }
{
    let a = s.v0.wrapping_add(s.v3);
    let c = s.v2.wrapping_add(s.v1);
    State {
        v0: a,
        v1: s.v1.rotate_left(17) ^ c,
        v2: c.rotate_left(32),
        v3: s.v3.rotate_left(21) ^ a,
    }
}

fn turned(s: State) -> State
    ensures { result ≡ Sip.round s }
{
    second_half(first_half(s))
}

#[tactic(auto, unfolding(crate::specs::Sip::absorb))]
fn absorbing(s: State, w: u64) -> State
    ensures { result ≡ Sip.absorb s w }
{
    let t = turned(turned(State { v3: s.v3 ^ w, ..s }));
    State { v0: t.v0 ^ w, ..t }
}

#[tactic(auto, unfolding(crate::specs::Sip::finish))]
fn ending(s: State) -> u64
    ensures { result ≡ Sip.finish s }
{
    let e = turned(turned(turned(turned(State {
        v2: s.v2 ^ 255,
        ..s
    }))));
    (e.v0 ^ e.v1) ^ (e.v2 ^ e.v3)
}

fn started(k0: u64, k1: u64) -> State
    ensures { result ≡ Sip.start k0 k1 }
{
    State {
        v0: k0 ^ 0x736f6d6570736575,
        v1: k1 ^ 0x646f72616e646f6d,
        v2: k0 ^ 0x6c7967656e657261,
        v3: k1 ^ 0x7465646279746573,
    }
}

// The number in the first eight bytes; a byte that is not there counts as 0.
fn first_word(bytes: &[u8]) -> u64
    ensures { result ≡ eight_at bytes.now 0 }
{
    u64::from_le_bytes(array::from_fn(|i| bytes.get(i).copied().unwrap_or(0)))
}

// What is left of a message after its whole words, and the message's length in the top byte.
#[tactic(auto, using(crate::proofs::Words::left_word))]
fn last_word(m: &[u8]) -> u64
    ensures { result ≡ Sip.last_word m.now }
{
    let (_, rest) = m.as_chunks::<8>();
    first_word(rest) | (m.len() as u64 % 256) << 56
}

// The hash of a message under the two words of a key.
#[tactic(auto, using(crate::proofs::Words::word_is), unfolding(crate::specs::Sip::absorbed))]
pub fn sip_hash(k0: u64, k1: u64, m: &[u8]) -> u64
    ensures { result ≡ Sip.sip_hash k0 k1 m.now }
{
    let mut s = started(k0, k1);
    for word in m.as_chunks::<8>().0 {
        s = absorbing(s, u64::from_le_bytes(*word));
    }
    ending(absorbing(s, last_word(m)))
}
