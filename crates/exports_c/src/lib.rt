// The hashes and the sheet seal under C names, for programs that are not written in Rattle.
// The C interface needs each of them by its own name here, so each only calls its namesake in `exports`.
#![tactic(auto)]

ghost use Rattle.std.specs.Prelude.{◌≡◌};
ghost use Rattle.letters.specs.Certificates.{digest_of};
ghost use Rattle.schemes.specs.Sip.{sip_hash};
ghost use Rattle.schemes.specs.Sheet.{sheet_sum};

// SipHash-2-4 under the two words of a key.
#[unsafe(no_mangle)]
pub extern "C" fn keychange_sip_hash(k0: u64, k1: u64, bytes: &[u8]) -> u64
    ensures { result ≡ sip_hash k0 k1 bytes.now }
{
    exports::keychange_sip_hash(k0, k1, bytes)
}

// FNV-1a, 64 bits.
#[unsafe(no_mangle)]
pub extern "C" fn keychange_digest(bytes: &[u8]) -> u64
    ensures { result ≡ (digest_of bytes.now).0 }
{
    exports::keychange_digest(bytes)
}

// The seal of a sheet on a statement; a word that is not there counts as 0.
#[unsafe(no_mangle)]
pub extern "C" fn keychange_sheet_seal(sheet: &[u64], statement: &[u8]) -> u64
    ensures { result ≡ sheet_sum sheet.now statement.now }
{
    exports::keychange_sheet_seal(sheet, statement)
}
