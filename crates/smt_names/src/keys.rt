//! The key of a name, which is compared first: made of its bytes where there are up to eight, and a hash of a
//! longer name. This file keeps no name.

ghost use Rattle.std.specs.Prelude.{◌≡◌, ◌-◌, ◌<◌, ◌≤◌, length, take, drop};
ghost use Rattle.std.specs.Int.{w32, w64, from_le_bytes};
ghost use Rattle.smt_names.specs.Internal.Keys.{mixed_of, tiny_key, short_key, long_key, key_of};

#[inline(always)]
pub(crate) fn mixed(key: u64) -> u64
    ensures { result ≡ mixed_of key }
{
    let product = u128::from(key) * 11_400_714_819_323_198_485;
    (product >> 64) as u64 ^ (product & 0xffff_ffff_ffff_ffff) as u64
}

// The key of a name. Names of one length of up to eight bytes have the same key only if they are the same.
#[inline(always)]
pub(crate) fn key(name: &[u8]) -> u64
    ensures { result ≡ key_of name.now }
{
    if name.len() < 4 {
        tiny(name)
    } else if name.len() <= 8 {
        short(name)
    } else {
        long(name)
    }
}

#[inline(always)]
fn tiny(name: &[u8]) -> u64
    requires { length name.now < 4 }
    ensures { result ≡ tiny_key name.now }
{
    match name {
        [a] => u64::from(*a),
        [a, b] => u64::from(*a) + u64::from(*b) * 256,
        [a, b, c] => u64::from(*a) + u64::from(*b) * 256 + u64::from(*c) * 65_536,
        _ => 0,
    }
}

#[inline(always)]
fn short(name: &[u8]) -> u64
    requires { 4 ≤ length name.now }
    ensures { result ≡ short_key name.now }
{
    u64::from(first_four(name)) + u64::from(last_four(name)) * 4_294_967_296
}

#[inline(always)]
fn first_four(name: &[u8]) -> u32
    requires { 4 ≤ length name.now }
    ensures { result ≡ from_le_bytes w32 (take 4 name.now) }
{
    match name.first_chunk::<4>() {
        Some(chunk) => u32::from_le_bytes(*chunk),
        None => 0,
    }
}

#[inline(always)]
fn last_four(name: &[u8]) -> u32
    requires { 4 ≤ length name.now }
    ensures { result ≡ from_le_bytes w32 (drop (length name.now - 4) name.now) }
{
    match name.last_chunk::<4>() {
        Some(chunk) => u32::from_le_bytes(*chunk),
        None => 0,
    }
}

// Two hashes go side by side, since each step of one waits for the one before.
#[inline(never)]
fn long(name: &[u8]) -> u64
    requires { 8 < length name.now }
    ensures { result ≡ long_key name.now }
{
    let mut even = name.len() as u64;
    let mut odd = 0;
    let mut left = name;
    while left.len() >= 16 {
        let rest = behind_eight(left);
        even = mixed(even ^ first_eight(left));
        odd = mixed(odd ^ first_eight(rest));
        left = behind_eight(rest);
    }
    let front = mixed(even ^ first_eight(last_sixteen(name)));
    mixed(front ^ odd ^ last_eight(name))
}

// The last sixteen bytes of a name, or all where there are no more.
#[inline(always)]
fn last_sixteen(name: &[u8]) -> &[u8]
    requires { 8 < length name.now }
    ensures { result.now ≡ drop (length name.now - 16) name.now }
{
    &name[name.len().saturating_sub(16)..]
}

#[inline(always)]
fn first_eight(name: &[u8]) -> u64
    requires { 8 ≤ length name.now }
    ensures { result ≡ from_le_bytes w64 (take 8 name.now) }
{
    match name.first_chunk::<8>() {
        Some(chunk) => u64::from_le_bytes(*chunk),
        None => 0,
    }
}

#[inline(always)]
fn last_eight(name: &[u8]) -> u64
    requires { 8 ≤ length name.now }
    ensures { result ≡ from_le_bytes w64 (drop (length name.now - 8) name.now) }
{
    match name.last_chunk::<8>() {
        Some(chunk) => u64::from_le_bytes(*chunk),
        None => 0,
    }
}

#[inline(always)]
fn behind_eight(name: &[u8]) -> &[u8]
    requires { 8 ≤ length name.now }
    ensures { result.now ≡ drop 8 name.now }
{
    &name[8..]
}
