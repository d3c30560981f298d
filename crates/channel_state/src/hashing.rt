//! How numbers that the server gives are hashed: FNV-1a over their octets, which is quick where these are few, and
//! has no key.
ghost use Rattle.std.specs.Prelude.{◌≡◌};

use std::hash::{BuildHasherDefault, Hasher};

/// A hash of a number so far.
#[derive(Clone, Copy)]
pub struct Fnv {
    hash: u64,
}

/// What makes one for each number.
pub type Quick = BuildHasherDefault<Fnv>;

impl Default for Fnv {
    ghost is_default = { λ h. h ≡ record { hash = 0xcbf29ce484222325 } };

    fn default() -> Fnv {
        Fnv {
            hash: 0xcbf2_9ce4_8422_2325,
        }
    }
}

impl Hasher for Fnv {
    ghost use Rattle.channel_state.specs.Hashing.{fnv_write};

    ghost write = { fnv_write };

    ghost finish = { λ h. h.hash };

    #[inline(always)]
    fn finish(&self) -> u64 {
        self.hash
    }

    #[inline(always)]
    fn write(&mut self, bytes: &[u8]) {
        let mut hash = self.hash;
        for octet in bytes {
            hash ^= u64::from(*octet);
            hash = hash.wrapping_mul(0x0000_0100_0000_01b3);
        }
        self.hash = hash;
    }
}
