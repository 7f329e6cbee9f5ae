// The tables of a set: which patterns begin with given bits, a flag for each pattern. First come words for four bits each,
// into which the patterns are entered one after the other; the tables, for eight bits each, are made of pairs of these.
ghost use Rattle.std.specs.Prelude.{◌≡◌, ℕ, ◌+◌, ◌≤◌, length, get_or};
ghost use Rattle.set_tables.specs.Fronts.{Halves, Kept};
ghost use Rattle.set_tables.specs.Parts.{lent, GoodSet, HalfEntered, Entered, RowPaired, PairedUp};

use crate::Patterns;
use bits::{ByteNo, load};
use matcher::compare;

// Four bits, each of which is fixed.
const ALL_FIXED: u64 = 15;

// Sets the flag in the words, from cell `at` on, of those values of four bits that agree with the first four of `value`
// where `care` has ones.
fn enter_half(cells: &mut [u64], at: usize, value: u64, care: u64, flag: u64)
    requires { at + 16 ≤ length cells.old }
    ensures { HalfEntered at value care flag cells.old cells.new }
{
    for x in 0usize..16 {
        if compare::same_where((x as u64) << 60, value, care, 4) {
            cells[at + x] |= flag;
        }
    }
}

// The same by one store where all four bits are fixed, since then one value alone agrees.
fn enter_four(cells: &mut [u64], at: usize, value: u64, care: u64, flag: u64)
    requires { at + 16 ≤ length cells.old }
    ensures { HalfEntered at value care flag cells.old cells.new }
{
    if care >> 60 == ALL_FIXED {
        let x = (value >> 60) as usize;
        cells[at + x] |= flag;
    } else {
        enter_half(cells, at, value, care, flag);
    }
}

// The same for the first 32 bits, four at a time.
fn enter(cells: &mut [u64], value: u64, care: u64, flag: u64)
    requires { 128 ≤ length cells.old }
    ensures { Entered value care flag cells.old cells.new }
{
    for g in 0usize..8 {
        enter_four(cells, 16 * g, value << (4 * g), care << (4 * g), flag);
    }
}

// What is kept of each pattern, and the words for four bits each.
pub fn enter_all(patterns: &Patterns, rows: &mut [u64], halves: &mut [u64])
    requires good_set { GoodSet (lent patterns.now) }
    requires in_bounds { (192 ≤ length rows.old) × (128 ≤ length halves.old) × ((z : ℕ) → get_or halves.old z 0 ≡ 0) }
    ensures { Kept (lent patterns.now) (length patterns.now.counts.now) rows.new × Halves (lent patterns.now) (length patterns.now.counts.now) halves.new }
{
    let Patterns {
        bytes,
        fixed,
        counts,
    } = *patterns;
    let mut start = 0usize;
    for (i, &m) in counts.iter().enumerate() {
        let value = load::word_near_end(&bytes[start..], ByteNo(0));
        let care = load::word_near_end(&fixed[start..], ByteNo(0)) & compare::front(m as u32);
        enter(halves, value, care, 1 << i);
        rows[i] = start as u64;
        rows[64 + i] = value & care;
        rows[128 + i] = care;
        start += bits::bytes_for(m) as usize;
    }
}

// The 16 words of one value of the first four bits. A loop of its own over cells that follow one another, so that the compiler
// makes several at once.
fn row(halves: &[u64], from: usize, first: u64, cells: &mut [u64], at: usize)
    requires { (from + 16 ≤ length halves.now) × (at + 16 ≤ length cells.old) }
    ensures { RowPaired from at first halves.now cells.old cells.new }
{
    for x in 0usize..16 {
        cells[at + x] = first & halves[from + x];
    }
}

// The words for eight bits each: each is the `and` of the word of its first four bits and that of its last four.
pub fn pair_up(halves: &[u64], cells: &mut [u64])
    requires { (128 ≤ length halves.now) × (1024 ≤ length cells.old) }
    ensures { PairedUp halves.now cells.new × (length cells.new ≡ length cells.old) }
{
    for z in 0usize..64 {
        let from = 32 * (z / 16);
        row(halves, from + 16, halves[from + z % 16], cells, 16 * z);
    }
}
