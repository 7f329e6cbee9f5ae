// Words of 64 bits compared in some of their bits.
ghost use Rattle.std.specs.Prelude.{◌≡◌, cond, ℕ, ◌≤◌, ◌<◌, min, ltb};
ghost use Rattle.bits.specs.Packed.{bit_of};
ghost use Rattle.matcher.specs.Words.{same_where};

// Ones for the first 57 bits of a pattern, or for all of a shorter one: what one load of eight bytes shows of it, wherever in
// its byte a place lies.
pub fn front(m: u32) -> u64
    requires { 0 < m }
    ensures { (j : ℕ) → j < 64 → bit_of 64 result j ≡ cond (ltb j (min m 57)) 1 0 }
{
    if m < 57 {
        u64::MAX << (64 - m)
    } else {
        u64::MAX << 7
    }
}

// Whether the first k bits of two words are the same where the third has a 1.
pub fn same_where(x: u64, y: u64, care: u64, k: u32) -> bool
    requires { (0 < k) × (k ≤ 64) }
    ensures { result ≡ same_where x y care k }
{
    ((x ^ y) & care) >> (64 - k) == 0
}
