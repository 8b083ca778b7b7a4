// The hashes and the sheet seal as programs that are not written in Rattle call them: `exports_c` gives
// them their C names.
#![tactic(auto)]

ghost use Rattle.std.specs.Prelude.{◌≡◌};
ghost use Rattle.letters.specs.Certificates.{digest_of};
ghost use Rattle.schemes.specs.Sip.{sip_hash};
ghost use Rattle.schemes.specs.Sheet.{sheet_sum};

use letters::digests::digest_of;
use schemes::sheet_seals::sheet_sum;
use schemes::sip::sip_hash;

// SipHash-2-4 under the two words of a key.
pub fn keychange_sip_hash(k0: u64, k1: u64, bytes: &[u8]) -> u64
    ensures { result ≡ sip_hash k0 k1 bytes.now }
{
    sip_hash(k0, k1, bytes)
}

// FNV-1a, 64 bits.
pub fn keychange_digest(bytes: &[u8]) -> u64
    ensures { result ≡ (digest_of bytes.now).0 }
{
    digest_of(bytes).0
}

// The seal of a sheet on a statement; a word that is not there counts as 0.
pub fn keychange_sheet_seal(sheet: &[u64], statement: &[u8]) -> u64
    ensures { result ≡ sheet_sum sheet.now statement.now }
{
    sheet_sum(sheet, statement)
}
