// Words for patterns with wild bits, one bit for each of many moves. Bit e of a word stands for the move d + e, at which the
// pattern's bit m - 1 - (d + e) lies where its last bit lay. The word of a value of k bits has a 1 where the pattern's bits
// agree with the value there. Words of one bit are a load of the pattern and of its second run; those of twice as many bits
// are made by `and` and a shift.
ghost use Rattle.std.specs.Prelude.{◌≡◌, ◌↔◌, true, ◌+◌, ◌*◌, ◌^◌, ◌≤◌, ◌<◌, length};
ghost use Rattle.rules.specs.Wild.{AllFixed};
ghost use Rattle.matcher.specs.Lined.{Ending, Words, Only, Paired};
ghost use Rattle.matcher.specs.Asked.{lent};

use crate::query::Pattern;
use bits::{Place, load};

// Whether no bit of the pattern is wild.
pub fn all_fixed(pattern: &Pattern) -> bool
    requires { (0 < pattern.now.m) × (pattern.now.m ≤ 2048) }
    ensures { (result ≡ true) ↔ AllFixed (lent pattern.now) }
{
    let Pattern { fixed, m, .. } = *pattern;
    let before = (m - 1) / 64;
    for load in 0..before {
        if load::word_at_byte(fixed, Place(64 * load).byte()) != u64::MAX {
            return false;
        }
    }
    let rest = 64 - (m - 64 * before);
    load::word_near_end(fixed, Place(64 * before).byte()) >> rest == u64::MAX >> rest
}

// The 64 bits of a run that end d bits before its bit m; where it has no bit, a 0.
fn ending(run: &[u8], m: u32, d: u32) -> u64
    requires { d ≤ m }
    ensures { Ending run.now m d result }
{
    let left = m - d;
    if left < 64 {
        return (load::word_at(run, Place(0)) >> (63 - left)) >> 1;
    }
    load::word_at(run, Place(left - 64))
}

// From the words of k bits those of 2 k: the word of the last k bits, and that of the first k, moved by k.
fn pair_up(cells: &mut [u64], from: usize, to: usize, size: usize, k: u32)
    requires { (k < 64) × (size ≡ 2 ^ k) × (from + size ≤ to) × (to + size * size ≤ length cells.old) }
    ensures { Paired k from to cells.old cells.new }
{
    for x in 0..size * size {
        cells[to + x] = cells[from + (x & (size - 1))] & (cells[from + (x >> k)] >> k);
    }
}

// The words for the moves from d on, in 22 cells: those of one bit, then those of two, then those of four.
pub fn line_up(pattern: &Pattern, d: u32, cells: &mut [u64], at: usize)
    requires { (d ≤ pattern.now.m) × (at + 22 ≤ length cells.old) }
    ensures { Words (lent pattern.now) d 4 (at + 6) cells.new × Only at (at + 22) cells.old cells.new }
{
    let p = ending(pattern.bytes, pattern.m, d);
    let f = ending(pattern.fixed, pattern.m, d);
    cells[at] = (p & f) ^ u64::MAX;
    cells[at + 1] = (f & (p ^ u64::MAX)) ^ u64::MAX;
    pair_up(cells, at, at + 2, 2, 1);
    pair_up(cells, at + 2, at + 6, 4, 2);
}
