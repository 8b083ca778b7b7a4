// Bytes while they are written, one part after another.
ghost use Rattle.std.specs.Prelude.{◌≡◌, ℕ, ◌+◌, ◌*◌, ◌≤◌, List, [], ◌++◌, length, take, map, Option};
ghost use Rattle.letters.specs.declared.sorts.Seal.{Seal};
ghost use Rattle.letters.specs.Bytes.{row_bytes};
ghost use Rattle.writing.specs.Closures.{Computes};
ghost use Rattle.writing.specs.Writing.{write_answer, write_buffer};

use letters::sorts::Seal;
use std::marker::Model;
use terms::refusals::{Refusal, no_room};

// Room for N bytes, of which so many are written.
#[derive(Drop)]
pub(crate) struct Draft<const N: usize> {
    bytes: [u8; N],
    len: usize,
}

// Clauses see the bytes written.
impl<const N: usize> Model for Draft<N> {
    ghost Value = { List ℕ };

    ghost view = { λ d. take d.len d.bytes };

    ghost invariant = { λ d. d.len ≤ N };
}

impl<const N: usize> Draft<N> {
    pub(crate) fn new() -> Draft<N>
        ensures { result ≡ [] }
    {
        Draft {
            bytes: [0; N],
            len: 0,
        }
    }

    pub(crate) fn len(&self) -> usize
        ensures { result ≡ length self.now }
    {
        self.len
    }

    pub(crate) fn as_slice(&self) -> &[u8]
        ensures bytes { result.now ≡ self.now }
        ensures within { length self.now ≤ N }
    {
        &self.bytes[..self.len]
    }

    pub(crate) fn extend(&mut self, part: &[u8])
        requires { length self.old + length part.now ≤ N }
        ensures { self.new ≡ self.old ++ part.now }
    {
        let end = self.len + part.len();
        let bytes = &mut self.bytes[..];
        bytes[self.len..end].copy_from_slice(part);
        self.len = end;
    }

    // The seals of the rows that have one, rows rising.
    pub(crate) fn extend_rows<T, F: Fn(&T) -> Option<Seal>>(&mut self, rows: &[T], seal_of: F)
        requires callable { F.IsAlwaysCallable seal_of }
        requires room { length self.old + 8 * length rows.now ≤ N }
        ensures rows { (seal : T → Option Seal) → Computes F.Fn seal_of seal → self.new ≡ self.old ++ row_bytes (map seal rows.now) }
        ensures within { length self.new ≤ length self.old + 8 * length rows.now }
    {
        for row in rows {
            if let Some(seal) = seal_of(row) {
                self.extend(&seal.0.to_le_bytes());
            }
        }
    }

    // Writes the draft over the start of a buffer, and says how long it is. Where there is
    // no room for all of it, nothing is written.
    pub(crate) fn write(&self, out: &mut [u8]) -> Result<usize, Refusal>
        ensures answer { result ≡ write_answer self.now out.old }
        ensures buffer { out.new ≡ write_buffer self.now out.old }
    {
        if out.len() < self.len {
            return Err(no_room());
        }
        out[..self.len].copy_from_slice(self.as_slice());
        Ok(self.len)
    }
}
