//! The hashes of cards and requests.

ghost use Rattle.std.specs.Prelude.{◌≡◌, ◌++◌};
ghost use Rattle.sha2.specs.Sha256.{sha256};

use crate::item::Hashed;
use sha2::{Digest, Sha256};

/// The SHA-256 of the salt and the bytes.
pub fn hashed(salt: &[u8], bytes: &[u8]) -> Hashed
    ensures { result.bytes ≡ sha256 (salt.now ++ bytes.now) }
{
    let mut hasher = Sha256::new();
    hasher.update(salt);
    hasher.update(bytes);
    Hashed {
        bytes: hasher.finalize(),
    }
}
