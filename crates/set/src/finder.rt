// What the steps of a call look at.
ghost use Rattle.std.specs.Prelude.{◌^◌, ◌≤◌, length};
ghost use Rattle.set_tables.specs.Fronts.{Tables, Kept};
ghost use Rattle.set_tables.specs.Parts.{lent, GoodSet};
ghost use Rattle.set.specs.Lengths.{Lengths};

use set_tables::Patterns;

// What the lengths of the patterns tell: before the place `until` every pattern fits, and a pattern without a flag in `long`
// has at most the 32 bits that the tables compare.
#[derive(Clone, Copy)]
pub struct Sure {
    pub until: u32,
    pub long: u64,
}

// What the steps of a call look at: the text and its bit count, the set, which has passed the refusals, and what was made of
// the set.
#[derive(Drop)]
pub struct Finder<'a> {
    pub text: &'a [u8],
    pub n: u32,
    pub patterns: Patterns<'a>,
    pub rows: &'a [u64],
    pub sure: Sure,
    pub cells: &'a [u64],
    pub ghost few_bits: { n ≤ 2 ^ 30 },
    pub ghost good: { GoodSet (lent patterns) },
    pub ghost kept: { Kept (lent patterns) (length patterns.counts.now) rows.now },
    pub ghost rows_there: { 192 ≤ length rows.now },
    pub ghost lengths: { Lengths n patterns.counts.now sure.until sure.long },
    pub ghost tables: { Tables (lent patterns) cells.now },
    pub ghost cells_there: { 1024 ≤ length cells.now },
}
