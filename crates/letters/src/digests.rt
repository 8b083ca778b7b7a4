// The digest of a certificate's bytes: FNV-1a, 64 bits.
ghost use Rattle.std.specs.Prelude.{◌≡◌};
ghost use Rattle.letters.specs.Certificates.{digest_of};

use crate::sorts::Digest;

const BASIS: u64 = 14695981039346656037;

const PRIME: u64 = 1099511628211;

pub fn digest_of(bytes: &[u8]) -> Digest
    ensures { result ≡ digest_of bytes.now }
{
    let hash = bytes.iter().fold(
        BASIS,
        |hash, byte| (hash ^ u64::from(*byte)).wrapping_mul(PRIME),
    );
    Digest(hash)
}
