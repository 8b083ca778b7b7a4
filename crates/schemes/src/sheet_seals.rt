// The sheet seal: a sum of the party's words, weighted by the bytes of the statement.
ghost use Rattle.std.specs.Prelude.{◌≡◌, ℕ, ◌+◌, ◌<◌, List, [], length, slice_index, refl};
ghost use Rattle.letters.specs.Sorts.{seal};
ghost use Rattle.schemes.specs.Kinds.{sheet_seal};
ghost use Rattle.schemes.specs.Sheet.{added, sheet_sum};

use crate::row_seals::Row;
use letters::sorts::Seal;

// A sum with word p + 1 added, as many times as byte p says and once more.
fn weighed(words: &[u64], bytes: &[u8], sum: u64, p: usize) -> u64
    requires { p < 24 }
    ensures { result ≡ added words.now bytes.now sum p }
{
    let word = words.get(p + 1).copied().unwrap_or(0);
    let byte = bytes.get(p).copied().unwrap_or(0);
    sum.wrapping_add(word.wrapping_mul(u64::from(byte) + 1))
}

// Word 0, and word p + 1 times (byte p + 1) for each of 24 bytes, modulo 2^64; a word that
// is not there counts as 0.
pub fn sheet_sum(words: &[u64], bytes: &[u8]) -> u64
    ensures { result ≡ sheet_sum words.now bytes.now }
{
    // By place, and not by a zip: past the end of `bytes` the words still count, once each.
    let first = words.first().copied().unwrap_or(0);
    (0..24).fold(first, |sum, p| weighed(words, bytes, sum, p))
}

impl Row for [u64; 25] {
    ghost seal_by = { sheet_seal };

    ghost sealed = { λ sheet statement. seal (sheet_sum sheet statement) };

    ghost missing = { [] };

    ghost by_own_row = { λ _ _ _. refl };

    #[tactic(auto, unfolding(crate::specs::Sheet::weighted))]
    fn blank() -> [u64; 25] {
        [0; 25]
    }

    fn seal(&self, statement: &[u8]) -> Seal {
        Seal(sheet_sum(self, statement))
    }
}
