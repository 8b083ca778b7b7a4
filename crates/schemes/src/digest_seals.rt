// The digest seal: SipHash-2-4 of the statement under the party's key.
ghost use Rattle.std.specs.Prelude.{◌≡◌, ℕ, List, [], refl};
ghost use Rattle.letters.specs.Bytes.{eight_at};
ghost use Rattle.letters.specs.Sorts.{seal};
ghost use Rattle.schemes.specs.Kinds.{digest_seal};
ghost use Rattle.schemes.specs.Sip as Sip;

use crate::row_seals::Row;
use crate::sip::sip_hash;
use letters::sorts::Seal;

impl Row for [u8; 16] {
    ghost seal_by = { digest_seal };

    ghost sealed = { λ key statement. seal (Sip.sip_hash (eight_at key 0) (eight_at key 8) statement) };

    ghost missing = { [] };

    ghost by_own_row = { λ _ _ _. refl };

    fn blank() -> [u8; 16] {
        [0; 16]
    }

    fn seal(&self, statement: &[u8]) -> Seal {
        let (words, _) = self.as_chunks::<8>();
        let first = u64::from_le_bytes(words[0]);
        let second = u64::from_le_bytes(words[1]);
        Seal(sip_hash(first, second, statement))
    }
}
