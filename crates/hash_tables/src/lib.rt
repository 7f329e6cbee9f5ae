// The tables of the hash method. A value B is eight bits of the text, and cell B holds the move after it: the least d in 1..m
// that meets the condition. The module `value` finds H(B) by itself.
#![tactic(auto)]

pub mod value;

ghost use Rattle.std.specs.Prelude.{◌≡◌, ◌+◌, ◌-◌, ◌*◌, ◌/◌, ◌^◌, ◌≤◌, ◌<◌, length, get_or};
ghost use Rattle.std.proofs.Math.Seq.{paste};
ghost use Rattle.bits.specs.Packed.{weight};
ghost use Rattle.rules.specs.Wild.{AllFixed};
ghost use Rattle.hash_tables.specs.HashMoves.{Entered};
ghost use Rattle.hash_tables.specs.HashWords.{United, Unions, LinedUp, FourMade, RowMade, RowsMade, AllUnset};
ghost use Rattle.rules.specs.Scratch.{scratch_cells};
ghost use Rattle.matcher.specs.Tables.{Prepared};
ghost use Rattle.matcher.specs.Ready.{GoodPattern};
ghost use Rattle.matcher.specs.Asked.{lent};

use bits::{Place, load};
use matcher::query::Pattern;
use matcher::wild;
use rules::Method;

// The first cells once more after themselves. A loop, since the library's copy of a slice is compiled to a call of `memcpy`, which
// programs in C that use the archive would have to bring along.
fn double(cells: &mut [u64], size: usize)
    requires { (size ≤ 128) × (256 ≤ length cells.old) }
    ensures { cells.new ≡ paste cells.old size cells.old size }
{
    for i in 0..size {
        cells[size + i] = cells[i];
    }
}

// The moves from m − 7 up, at which the pattern's first bits are the value's last. Before turn k the first 2^(k − 1) cells
// hold the moves above m − k, and a value has that of the cell that its last k − 1 bits number.
fn prepare_ends(pattern: &Pattern, cells: &mut [u64])
    requires good_pattern { GoodPattern Method.Hash (lent pattern.now) }
    requires all_fixed { AllFixed (lent pattern.now) }
    requires in_bounds { 256 ≤ length cells.old }
    ensures { Entered (lent pattern.now) cells.old cells.new (pattern.now.m - 8) }
{
    let first = load::byte_at(pattern.bytes, Place(0));
    cells[0] = pattern.m as u64;
    let mut size = 1usize;
    for k in 1..8u32 {
        double(cells, size);
        cells[(first >> (8 - k)) as usize] = (pattern.m - k) as u64;
        size *= 2;
    }
    double(cells, size);
}

// The moves d, d − 1, .. of k values that the pattern shows whole, one after the other in one load.
fn enter(pattern: &Pattern, d: u32, k: u32, cells: &mut [u64])
    requires d_bound { (d + 8 ≤ pattern.now.m) × (k ≤ d) × (k ≤ 57) × (256 ≤ length cells.old) }
    requires all_fixed { AllFixed (lent pattern.now) }
    requires entered { Entered (lent pattern.now) cells.old cells.old d }
    ensures { Entered (lent pattern.now) cells.old cells.new (d - k) }
{
    let mut x = load::word_at(pattern.bytes, Place(pattern.m - 8 - d));
    for r in 0..k {
        cells[(x >> 56) as usize] = (d - r) as u64;
        x <<= 1;
    }
}

// All moves of a pattern without wild bits, the greatest first: the least one of a value is entered last. By a `while`, as the
// last turn enters fewer than 57.
fn prepare_fixed(pattern: &Pattern, cells: &mut [u64])
    requires good_pattern { GoodPattern Method.Hash (lent pattern.now) }
    requires all_fixed { AllFixed (lent pattern.now) }
    requires in_bounds { 256 ≤ length cells.old }
    ensures { Entered (lent pattern.now) cells.old cells.new 0 }
{
    prepare_ends(pattern, cells);
    let mut d = pattern.m - 8;
    while 57 < d {
        enter(pattern, d, 57, cells);
        d -= 57;
    }
    enter(pattern, d, d, cells);
}

// With wild bits many values meet the condition at one move. So the moves are taken 57 at a time, by words of which bit e stands
// for the move d + 1 + e (`matcher::wild`). They lie in the cells from WORDS on, those of four bits from FOUR on. Many a value
// meets the condition at none of these moves, and four values are ruled out at once by the union of their words, in the cells
// from UNIONS on. A bit of cell UNSET + h stands for a value whose first four bits are h, and is 1 while that has no move.
const WORDS: usize = 256;

const FOUR: usize = 262;

const UNIONS: usize = 278;

const UNSET: usize = 342;

// The word if bit j of the set is 1, else 0.
fn if_in(word: u64, set: u64, j: usize) -> u64
    requires { j < 64 }
    ensures { result ≡ word * weight set j }
{
    word * ((set >> j) & 1)
}

// The unions of four words, one for each set of them.
fn unite(cells: &mut [u64], g: usize)
    requires { (g < 4) × (512 ≤ length cells.old) }
    ensures { United g cells.old cells.new }
{
    let a = cells[FOUR + 4 * g];
    let b = cells[FOUR + 4 * g + 1];
    let c = cells[FOUR + 4 * g + 2];
    let d = cells[FOUR + 4 * g + 3];
    for set in 0..16usize {
        let s = set as u64;
        cells[UNIONS + 16 * g + set] = if_in(a, s, 0)
            | if_in(b, s, 1)
            | if_in(c, s, 2)
            | if_in(d, s, 3);
    }
}

// The words for the moves after d, and their unions.
fn line_up(pattern: &Pattern, d: u32, cells: &mut [u64])
    requires { (d < pattern.now.m) × (pattern.now.m ≤ 2048) × (512 ≤ length cells.old) }
    ensures { LinedUp (lent pattern.now) d cells.old cells.new }
{
    wild::line_up(pattern, d + 1, cells, WORDS);
    for g in 0..4usize {
        unite(cells, g);
    }
}

// The moves d + 1 to d + 57 of the four values whose first four bits are `high` and whose next two are g, for those in `unset`,
// which have none yet: each gets the least at which the words of its two halves agree. The answer has those that are left.
fn settle_four(cells: &mut [u64], high: usize, g: usize, later: u64, unset: u64, d: u32) -> u64
    requires high_bound { (high < 16) × (g < 4) × (d ≤ 2048) × (512 ≤ length cells.old) }
    requires later_value { later ≡ get_or cells.old (262 + high) 0 / 2 ^ 4 }
    ensures { FourMade d high g unset cells.old result cells.new }
{
    let mut kept = unset;
    for low in 4 * g..4 * g + 4 {
        let moves = if_in(cells[FOUR + low], kept, low) & later;
        if moves != 0 {
            cells[16 * high + low] = (d + 1 + moves.trailing_zeros()) as u64;
            kept ^= 1 << low;
        }
    }
    kept
}

// The same for the 16 values whose first four bits are `high`.
fn settle_row(cells: &mut [u64], high: usize, unset: u64, d: u32) -> u64
    requires high_bound { (high < 16) × (d ≤ 2048) × (512 ≤ length cells.old) }
    requires unions { Unions cells.old }
    ensures { RowMade d high unset cells.old result cells.new }
{
    let later = cells[FOUR + high] >> 4;
    let mut kept = unset;
    for g in 0..4usize {
        let set = ((kept >> (4 * g)) & 15) as usize;
        if cells[UNIONS + 16 * g + set] & later != 0 {
            kept = settle_four(cells, high, g, later, kept, d);
        }
    }
    kept
}

// The moves d + 1 to d + 57 of all values. Where the answer is 0 each has its move.
fn settle(cells: &mut [u64], d: u32) -> u64
    requires d_bound { (d ≤ 2048) × (512 ≤ length cells.old) }
    requires unions { Unions cells.old }
    ensures { RowsMade d cells.old result cells.new }
{
    let mut unset = 0u64;
    for high in 0..16usize {
        let before = cells[UNSET + high];
        let kept = settle_row(cells, high, before, d);
        cells[UNSET + high] = kept;
        unset |= kept;
    }
    unset
}

// No cell has its move yet.
fn unset_all(cells: &mut [u64])
    requires { 512 ≤ length cells.old }
    ensures { AllUnset cells.old cells.new }
{
    cells[UNSET..UNSET + 16].fill(65535);
}

// All moves of any pattern, the least first, until each value has one: by a `while`, as it may end before the pattern does.
fn prepare_wild(pattern: &Pattern, cells: &mut [u64])
    requires good_pattern { GoodPattern Method.Hash (lent pattern.now) }
    requires in_bounds { 512 ≤ length cells.old }
    ensures { Prepared Method.Hash (lent pattern.now) cells.old cells.new }
{
    unset_all(cells);
    let mut d = 0u32;
    let mut unset = 1u64;
    while d < pattern.m && unset != 0 {
        line_up(pattern, d, cells);
        unset = settle(cells, d);
        d += 57;
    }
}

// The table: the quick way for a pattern without wild bits.
pub fn prepare(pattern: &Pattern, cells: &mut [u64])
    requires good_pattern { GoodPattern Method.Hash (lent pattern.now) }
    requires m_in_bounds { scratch_cells Method.Hash pattern.now.m ≤ length cells.old }
    ensures { Prepared Method.Hash (lent pattern.now) cells.old cells.new }
{
    if wild::all_fixed(pattern) {
        prepare_fixed(pattern, cells);
    } else {
        prepare_wild(pattern, cells);
    }
}
