// H(B): the least move at which the pattern shows the value B, tried move by move and with no table.
ghost use Rattle.std.specs.Prelude.{◌≡◌, false, ℕ, ◌-◌, ◌<◌};
ghost use Rattle.rules.specs.Hash.{meets, hash_of};
ghost use Rattle.matcher.specs.Ready.{GoodPattern};
ghost use Rattle.matcher.specs.Asked.{lent};

use bits::{Place, load};
use matcher::query::Pattern;
use rules::Method;

// Where no place of the pattern shows the whole value: its first k bits are the value's last, the most bits first.
fn hash_by_first_bits(pattern: &Pattern, value: u8) -> u32
    requires good_pattern { GoodPattern Method.Hash (lent pattern.now) }
    requires by_index { (d : ℕ) → d < pattern.now.m - 7 → meets (lent pattern.now) value d ≡ false }
    ensures { result ≡ hash_of (lent pattern.now) value }
{
    let first = load::byte_at(pattern.bytes, Place(0)) as u32;
    let care = load::byte_at(pattern.fixed, Place(0)) as u32;
    for k in (1..8u32).rev() {
        if ((value as u32 % (1 << k)) ^ (first >> (8 - k))) & (care >> (8 - k)) == 0 {
            return pattern.m - k;
        }
    }
    pattern.m
}

// H(B): the whole value first, from the pattern's end on.
pub fn hash_of(pattern: &Pattern, value: u8) -> u32
    requires { GoodPattern Method.Hash (lent pattern.now) }
    ensures { result ≡ hash_of (lent pattern.now) value }
{
    for d in 0..pattern.m - 7 {
        let p = Place(pattern.m - 8 - d);
        if (value ^ load::byte_at(pattern.bytes, p)) & load::byte_at(pattern.fixed, p) == 0 {
            return d;
        }
    }
    hash_by_first_bits(pattern, value)
}
