// Loads of several bits, for the matchers. Bits past the last byte read as 0, and nothing outside the lent bytes is read.
ghost use Rattle.std.specs.Prelude.{◌≡◌, ◌+◌, ◌-◌, ◌*◌, ◌/◌, ◌^◌, ◌≤◌, ◌<◌, [], ◌∷◌, length, get_or};
ghost use Rattle.bits.specs.Packed.{bits_at};

use crate::{ByteNo, Place};

// Eight bytes as one number, the first one highest. By hand, since `u64::from_be_bytes` takes an array, which no function of a
// search for one pattern may have, and a loop over eight bytes is not always compiled to one machine load.
fn join(a: u8, b: u8, c: u8, d: u8, e: u8, f: u8, g: u8, h: u8) -> u64
    ensures { result ≡ bits_at (a ∷ b ∷ c ∷ d ∷ e ∷ f ∷ g ∷ h ∷ []) 0 64 }
{
    (u64::from(a) << 56)
        | (u64::from(b) << 48)
        | (u64::from(c) << 40)
        | (u64::from(d) << 32)
        | (u64::from(e) << 24)
        | (u64::from(f) << 16)
        | (u64::from(g) << 8)
        | u64::from(h)
}

// Byte b, 0 past the last one.
fn byte_or_zero(bytes: &[u8], b: ByteNo) -> u64
    ensures { result ≡ get_or bytes.now b.0 0 }
{
    bytes.get(b.0).map_or(0, |byte| u64::from(*byte))
}

// The eight bits from p on.
pub fn byte_at(bytes: &[u8], p: Place) -> u8
    ensures { result ≡ bits_at bytes.now p.0 8 }
{
    let b = p.byte();
    let r = p.offset();
    let left = (byte_or_zero(bytes, b) << r) % 256;
    let right = byte_or_zero(bytes, ByteNo(b.0 + 1)) >> (8 - r);
    (left | right) as u8
}

// The eight bits from p on where they lie inside the bytes, as an index: two loads and no branch.
pub fn byte_inside(bytes: &[u8], p: Place) -> usize
    requires { (p.0 + 8 ≤ length bytes.now * 8) × (p.0 + 8 ≤ 2 ^ 32) }
    ensures { result ≡ bits_at bytes.now p.0 8 }
{
    let last = Place(p.0 + 7);
    let b = p.byte().0;
    let e = last.byte().0;
    let both = usize::from(bytes[b]) * 256 + usize::from(bytes[e]);
    (both >> (7 - last.offset())) % 256
}

// Eight whole bytes from byte b on, the first one highest: one machine load and a byte swap.
pub fn eight_bytes(bytes: &[u8], b: ByteNo) -> u64
    requires { b.0 + 8 ≤ length bytes.now }
    ensures { result ≡ bits_at bytes.now (b.0 * 8) 64 }
{
    let at = b.0;
    join(
        bytes[at],
        bytes[at + 1],
        bytes[at + 2],
        bytes[at + 3],
        bytes[at + 4],
        bytes[at + 5],
        bytes[at + 6],
        bytes[at + 7],
    )
}

// The same where the bytes end with these eight or before: only those that are there are read.
fn last_bytes(bytes: &[u8], b: ByteNo) -> u64
    requires { length bytes.now ≤ b.0 + 8 }
    ensures { result ≡ bits_at bytes.now (b.0 * 8) 64 }
{
    if bytes.len() <= b.0 {
        return 0;
    }
    let rest = &bytes[b.0..];
    let joined = rest
        .iter()
        .fold(0, |x: u64, byte| x << 8 | u64::from(*byte));
    joined << (64 - ByteNo(rest.len()).place().0)
}

// The 64 bits from p on where nine bytes from p's byte on are there: no branch.
pub fn word_inside(bytes: &[u8], p: Place) -> u64
    requires { p.0 / 8 + 9 ≤ length bytes.now }
    ensures { result ≡ bits_at bytes.now p.0 64 }
{
    let b = p.byte();
    let r = p.offset();
    let ninth = b.0 + 8;
    (eight_bytes(bytes, b) << r) | (u64::from(bytes[ninth]) >> (8 - r))
}

// The 64 bits from p on. A call, so that the loops around it stay small.
#[inline(never)]
pub fn word_at(bytes: &[u8], p: Place) -> u64
    ensures { result ≡ bits_at bytes.now p.0 64 }
{
    let b = p.byte();
    if b.0 + 8 < bytes.len() {
        word_inside(bytes, p)
    } else {
        last_bytes(bytes, b) << p.offset()
    }
}

// 64 bits of which the first 57 are those from p on, where eight bytes from p's byte on are there: one machine load, and no
// branch. A comparison of that many bits rules most places out.
pub fn head_inside(bytes: &[u8], p: Place) -> u64
    requires { p.0 / 8 + 8 ≤ length bytes.now }
    ensures { result / 2 ^ 7 ≡ bits_at bytes.now p.0 57 }
{
    eight_bytes(bytes, p.byte()) << p.offset()
}

// The 64 bits from byte b on: one machine load, and near the end a call. Small enough to stand in every hot loop.
#[inline(always)]
pub fn word_at_byte(bytes: &[u8], b: ByteNo) -> u64
    requires { b.0 < 2 ^ 29 }
    ensures { result ≡ bits_at bytes.now (b.0 * 8) 64 }
{
    if b.0 + 8 <= bytes.len() {
        eight_bytes(bytes, b)
    } else {
        word_at(bytes, b.place())
    }
}

// The same where the bytes mostly end soon, as those of a short pattern do: no call.
pub fn word_near_end(bytes: &[u8], b: ByteNo) -> u64
    requires { b.0 < 2 ^ 29 }
    ensures { result ≡ bits_at bytes.now (b.0 * 8) 64 }
{
    if bytes.len() < b.0 + 8 {
        last_bytes(bytes, b)
    } else {
        eight_bytes(bytes, b)
    }
}
