// A buffer of packed bits, read and written bit by bit: bit p has the weight 2^(7 − p mod 8) in byte p div 8. What lies
// out of range is read as 0 and not written.
use crate::cells::{get, put};
use crate::draw::drawn_byte;

// Where the text begins, in bytes and in bits; the pattern begins at 0. Then comes the pattern's second run, 1 for
// fixed and 0 for wild, and then the end.
pub const TEXT: usize = 260;

pub const TEXT_BIT: usize = 2080;

pub const FIXED: usize = 813;

pub const FIXED_BIT: usize = 6504;

pub const BYTES: usize = 1073;

// Drawn bytes.
pub fn fill(s: &mut [u8], x: usize) {
    for (i, byte) in s.iter_mut().enumerate() {
        *byte = drawn_byte(x, i);
    }
}

pub fn bit(s: &[u8], p: usize) -> u8 {
    (get(s, p / 8) >> (7 - p % 8)) % 2
}

// Bit p becomes b, which is 0 or 1.
fn set_bit(s: &mut [u8], p: usize, b: u8) {
    if let Some(byte) = s.get_mut(p / 8) {
        let o = 7 - p % 8;
        *byte ^= ((*byte >> o) % 2 ^ b) << o;
    }
}

// k bits from `at` on become b, which is 0 or 1.
pub fn put_bits(s: &mut [u8], at: usize, k: usize, b: u8) {
    for j in 0..k {
        set_bit(s, at.wrapping_add(j), b);
    }
}

// Bit p becomes the other one where b is 1; b is 0 or 1.
pub fn flip(s: &mut [u8], p: usize, b: u8) {
    set_bit(s, p, bit(s, p) ^ b);
}

// Copies k bits, rising, so that bits that were just written are copied again where the two overlap: a period.
pub fn copy(s: &mut [u8], from: usize, to: usize, k: usize) {
    for j in 0..k {
        set_bit(s, to.wrapping_add(j), bit(s, from.wrapping_add(j)));
    }
}

// Whether k bits from i on are those from j on.
pub fn agree(s: &[u8], i: usize, j: usize, k: usize) -> bool {
    (0..k).all(|o| bit(s, i.wrapping_add(o)) == bit(s, j.wrapping_add(o)))
}

// The last n binary digits of a number, up to 64, from byte `at` on; zeros fill the last byte, and up to eight bytes.
pub fn put_digits(s: &mut [u8], at: usize, digits: usize, n: usize) {
    let bytes = (digits << (64usize.saturating_sub(n) % 64)).to_be_bytes();
    for (i, byte) in bytes.into_iter().enumerate() {
        put(s, at.wrapping_add(i), byte);
    }
}
