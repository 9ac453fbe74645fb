// The hash of a name.
ghost use Rattle.std.specs.Prelude.{◌≡◌};
ghost use Rattle.pgo_base.specs.Hash as spec;

use md5::{Digest, Md5};

/// The first 8 bytes of the MD5 of `bytes`, read as a little-endian number: the hash that LLVM's profile runtime gives
/// to a function's name (`IndexedInstrProf::ComputeHash`). It takes no memory.
pub fn hash8(bytes: &[u8]) -> u64
    ensures { result ≡ spec.hash8 bytes.now }
{
    let digest = Md5::digest(bytes);
    u64::from_le_bytes([
        digest[0], digest[1], digest[2], digest[3], digest[4], digest[5], digest[6], digest[7],
    ])
}
