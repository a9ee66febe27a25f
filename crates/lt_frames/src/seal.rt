// Seals: the first bytes of SHA-256 over a key and what is sealed.
ghost use Rattle.std.specs.Prelude.{◌≡◌, ◌++◌, length};
ghost use Rattle.sha2.specs.Sha256.{sha256};
ghost use Rattle.lt_frames.specs.Sealing.{same_bytes};

use sha2::{Digest, Sha256};

pub(crate) fn digest_of(key: &[u8], sealed: &[u8]) -> [u8; 32]
    ensures { result ≡ sha256 (key.now ++ sealed.now) }
{
    let mut hasher = Sha256::new();
    hasher.update(key);
    hasher.update(sealed);
    hasher.finalize()
}

// Whether they are the same, by all their bytes: the time tells nothing of where they differ.
#[tactic(auto, using(crate::proofs::Same::folds))]
pub(crate) fn are_same(one: &[u8], other: &[u8]) -> bool
    requires { length one.now ≡ length other.now }
    ensures { result ≡ same_bytes one.now other.now }
{
    let mut differences = 0;
    for k in 0..one.len() {
        differences |= one[k] ^ other[k];
    }
    differences == 0
}
