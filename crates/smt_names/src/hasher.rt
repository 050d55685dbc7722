//! The hasher of the library's table. This file knows no name.

ghost use Rattle.std.specs.Prelude.{◌≡◌};
ghost use Rattle.smt_names.specs.Internal.Keys.{key_of, mixed_of};

use crate::keys::{key, mixed};
use std::default::Default;
use std::hash::Hasher;

/// Has the key of the bytes that were written last: whatever is hashed here is written at once.
#[derive(Clone, Copy)]
pub(crate) struct KeyHasher {
    key: u64,
}

impl Default for KeyHasher {
    ghost is_default = { λ h. h.key ≡ 0 };

    #[inline(always)]
    fn default() -> KeyHasher {
        KeyHasher { key: 0 }
    }
}

impl Hasher for KeyHasher {
    ghost write = { λ h bytes. record { key = key_of bytes } };

    ghost finish = { λ h. mixed_of (mixed_of h.key) };

    #[inline(always)]
    fn finish(&self) -> u64 {
        hash_of(self.key)
    }

    #[inline(always)]
    fn write(&mut self, bytes: &[u8]) {
        self.key = key(bytes);
    }
}

// The hash of a key. Once mixed, keys of names that are numbered would share low bits, by which the table goes.
#[inline(always)]
pub(crate) fn hash_of(key: u64) -> u64
    ensures { result ≡ mixed_of (mixed_of key) }
{
    mixed(mixed(key))
}
