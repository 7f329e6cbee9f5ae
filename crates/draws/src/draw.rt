// Fixed generators, so that each run draws the same cases.
ghost use Rattle.std.specs.Prelude.{◌≡◌, ◌+◌, ◌^◌, ◌<◌, ◌≤◌, IfSome, slice_get};
ghost use Rattle.draws.specs.Content.{content};

use crate::number::Low;

// The number after x (xorshift): each case of a kind has its own.
pub fn next(x: usize) -> usize {
    let a = x ^ (x << 13);
    let b = a ^ (a >> 7);
    b ^ (b << 17)
}

// What a case draws: its i-th number, below k; 0 where k is 0. Two products mix the halves of x and i.
pub fn draw(x: usize, i: usize, k: usize) -> usize
    ensures below { 0 < k → result < k }
    ensures none { k ≡ 0 → result ≡ 0 }
{
    let a = x ^ (i << 40) ^ (i << 11);
    let b = a % 4294967296 * 2654435769;
    let c = b ^ (b >> 32) ^ (a >> 32);
    let d = c % 4294967296 * 2246822519;
    let e = d ^ (d >> 29) ^ (b >> 16);
    if k == 0 { 0 } else { (e >> 8) % k }
}

// Byte i of a buffer before a case.
pub fn drawn_byte(x: usize, i: usize) -> u8 {
    u8::low(draw(x, i ^ 4096, 256))
}

// What lies in cell i of a buffer before a call: cheap, and another number in each cell.
#[tactic(auto, unfolding(crate::specs::Content::content))]
pub fn content(x: usize, i: usize) -> usize
    ensures { result ≡ content x i }
{
    x ^ (i << 40) ^ (i << 9)
}

// A drawn number of a class. A table has for each class the least number and how many there are from it on; classes past
// the last are the last.
pub fn choose(table: &[(usize, usize)], class: usize, x: usize, i: usize) -> usize
    ensures low { IfSome (slice_get table.now class) (λ c. 0 < c.1 → c.0 + c.1 ≤ 2 ^ 64 → c.0 ≤ result) }
    ensures high { IfSome (slice_get table.now class) (λ c. 0 < c.1 → c.0 + c.1 ≤ 2 ^ 64 → result < c.0 + c.1) }
{
    match table.get(class).or(table.last()) {
        Some(&(least, count)) => least.wrapping_add(draw(x, i, count)),
        None => 0,
    }
}
