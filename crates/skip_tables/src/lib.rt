// The tables of the skip method, in which one whole byte of the text decides many places: they tell at which indices the
// pattern shows a byte. There are two kinds of tables. Where every bit of the pattern is fixed, cell B, below 256, is the head
// of the chain of the indices at which the pattern shows the byte B, highest first, and cell 256 + j is the link after index j.
// Head and link are one more than an index, and 0 ends the chain. With wild bits an index may show many bytes. Then the cells
// hold words of flags (`matcher::wild`), 22 for each 57 indices from the last one down: two loads and an `and` tell which of
// these show a byte, and the lowest flag is the highest index. Cell 255 + m, which neither kind uses, tells which it is.
//
// `prepare` makes the tables of the kind that fits the pattern. A kind is a type, `Chains` or `Words`, and `Tables` are those of
// one kind. `Walk` asks them for one index after the other, for the places from any mark on; `flags` and `next_block` ask words
// for the flags of a block.
#![tactic(auto)]

ghost use Rattle.std.specs.Prelude.{◌≡◌, ◌++◌, List, ℕ, ◌+◌, ◌-◌, ◌*◌, ◌/◌, ◌^◌, ◌≤◌, ◌<◌, length, drop, replicate, MatchOption};
ghost use Rattle.rules.specs.Pattern.{Pattern};
ghost use Rattle.rules.specs.Wild.{AllFixed};
ghost use Rattle.skip_tables.specs.SkipChains.{Filled, last_shown, OnChain, Flags, Flagging, FlagsAfter};
ghost use Rattle.rules.specs.Scratch.{scratch_cells};
ghost use Rattle.matcher.specs.Tables.{chained, Prepared};
ghost use Rattle.matcher.specs.Ready.{GoodPattern};
ghost use Rattle.matcher.specs.Asked.{lent};

use bits::{ByteNo, Place, load};
use matcher::query::Pattern;
use matcher::wild;
use rules::Method;
use std::marker::PhantomData;

// All 64 bits are 1.
pub const ALL: u64 = 18446744073709551615;

// The last whole byte inside place s, document 01's b.
pub fn last_byte(s: Place, m: u32) -> ByteNo
    requires { (s.0 ≤ 2 ^ 30) × (15 ≤ m) × (m ≤ 2048) }
    ensures { result.0 ≡ (s.0 + m) / 8 - 1 }
{
    ByteNo(Place(s.0 + m).byte().0 - 1)
}

// How many indices are chained: the places of a step from a mark 8 a + 1 on, so those of the mark 1.
pub fn indices(m: u32) -> u32
    requires { (15 ≤ m) × (m ≤ 2048) }
    ensures { result ≡ chained m }
{
    last_byte(Place(1), m).place().0
}

// How many blocks of 57 moves it takes to reach index 0.
fn blocks(m: u32) -> u32
    requires { m ≤ 2048 }
    ensures { result ≡ (m + 49) / 57 }
{
    (m + 49) / 57
}

// The chain of every byte empty.
fn clear(cells: &mut [u64])
    requires { 256 ≤ length cells.old }
    ensures { cells.new ≡ replicate 256 0 ++ drop 256 cells.old }
{
    cells[..256].fill(0);
}

// Enters k indices from j on, rising, each at the head of its chain: the bytes that the pattern shows there begin one bit
// after the other in one load.
fn enter(pattern: &Pattern, j: u32, k: u32, cells: &mut [u64])
    requires k_bound { (j + k < pattern.now.m) × (pattern.now.m ≤ 2048) × (k ≤ 57) × (256 + pattern.now.m ≤ length cells.old) }
    requires filled { Filled (lent pattern.now) cells.old j cells.old }
    ensures { Filled (lent pattern.now) cells.old (j + k) cells.new }
{
    let mut x = load::word_at(pattern.bytes, Place(j));
    for r in 0..k {
        let v = (x >> 56) as usize;
        let i = j + r;
        cells[256 + i as usize] = cells[v];
        cells[v] = (i + 1) as u64;
        x = x << 1;
    }
}

// The chains: the indices of the places of a step from a mark 8 b + 1 on, 56 by one load.
fn prepare_chains(pattern: &Pattern, cells: &mut [u64])
    requires good_pattern { GoodPattern Method.Skip (lent pattern.now) }
    requires all_fixed { AllFixed (lent pattern.now) }
    requires m_in_bounds { scratch_cells Method.Skip pattern.now.m ≤ length cells.old }
    ensures { Prepared Method.Skip (lent pattern.now) cells.old cells.new }
{
    clear(cells);
    cells[255 + pattern.m as usize] = 0;
    let count = indices(pattern.m);
    for load in 0..count.div_ceil(56) {
        let j = 56 * load;
        enter(pattern, j, matcher::cut(56, count - j), cells);
    }
}

// The words, for 57 indices at a time.
fn prepare_words(pattern: &Pattern, cells: &mut [u64])
    requires good_pattern { GoodPattern Method.Skip (lent pattern.now) }
    requires m_in_bounds { scratch_cells Method.Skip pattern.now.m ≤ length cells.old }
    ensures { Prepared Method.Skip (lent pattern.now) cells.old cells.new }
{
    cells[255 + pattern.m as usize] = 1;
    for k in 0..blocks(pattern.m) {
        wild::line_up(pattern, 57 * k, cells, (22 * k) as usize);
    }
}

// The tables of the kind that fits the pattern.
pub fn prepare(pattern: &Pattern, cells: &mut [u64])
    requires good_pattern { GoodPattern Method.Skip (lent pattern.now) }
    requires m_in_bounds { scratch_cells Method.Skip pattern.now.m ≤ length cells.old }
    ensures { Prepared Method.Skip (lent pattern.now) cells.old cells.new }
{
    if wild::all_fixed(pattern) {
        prepare_chains(pattern, cells);
    } else {
        prepare_words(pattern, cells);
    }
}

// A kind of tables, by what their cells hold. The type has no value: it is named where a kind is chosen.
pub trait Kind {
    ghost holds: { Pattern → List ℕ → Type 0 };

    ghost holds_prop: { (w : Pattern) (cells : List ℕ) → IsProp (holds w cells) };
}

// A pattern and its tables, which are of one kind.
#[derive(Drop)]
pub struct Tables<'a, K: Kind> {
    pub pattern: &'a Pattern<'a>,
    pub cells: &'a [u64],
    pub of: PhantomData<K>,
    pub ghost holds: { K.holds (lent pattern.now) cells.now } by { K.holds_prop (lent pattern.now) cells.now },
    pub ghost long: { 15 ≤ pattern.now.m },
    pub ghost few_bits: { pattern.now.m ≤ 2048 },
    pub ghost room: { 256 + pattern.now.m ≤ length cells.now },
}

// A block of 57 moves, the first of which is 57 times its number, and those of its flags that are left.
#[derive(Clone, Copy)]
pub struct Block {
    pub number: u32,
    pub left: u64,
}

// Where a walk over the indices that show a byte has come to: the link to try and, by words, the block with the flags after it.
// As in a chain a link is one more than an index, and 0 is the end: an `Option` would take a test more at each link. With a type
// of each kind's own in place of the block, the proofs of the kinds' impls do not close.
#[derive(Clone, Copy)]
pub struct Links {
    pub first: u64,
    block: Block,
}

// Tables as a walk asks them: a kind's links for the places from index k - 1 down, one after the other.
pub trait Walk: Kind {
    ghost use Rattle.skip_tables.specs.declared.Links.{Links};

    ghost walking: { Pattern → ℕ → Links → Type 0 };

    // The links to try first.
    fn first(tables: &Tables<Self>, v: u8, k: u32) -> Links
        requires { (k + 7 ≤ tables.now.pattern.now.m) × (tables.now.pattern.now.m < k + 15) }
        ensures { (result.first ≤ k) × (last_shown (lent tables.now.pattern.now) v k ≤ result.first) × walking (lent tables.now.pattern.now) v result };

    // The links to try after these.
    fn next(tables: &Tables<Self>, v: u8, links: Links) -> Links
        requires some { (0 < links.first) × (links.first + 7 ≤ tables.now.pattern.now.m) }
        requires walking { walking (lent tables.now.pattern.now) v links }
        ensures { (result.first < links.first) × (last_shown (lent tables.now.pattern.now) v (links.first - 1) ≤ result.first) × walking (lent tables.now.pattern.now) v result };
}

// Chains of indices.
pub struct Chains;

impl Kind for Chains {
    ghost use Rattle.matcher.specs.Tables.{ChainTables};
    ghost use Rattle.skip_tables.specs.SkipChains.{chain_tables_prop};

    ghost holds = { ChainTables };

    ghost holds_prop = { chain_tables_prop };
}

impl Tables<'_, Chains> {
    // The link to try first for the places from index k - 1 down: the head of v's chain without the indices from k on. An
    // index that is not chained is tried whatever it shows.
    fn first_link(&self, v: u8, k: u32) -> u64
        ensures { (result ≤ k) × (last_shown (lent self.now.pattern.now) v k ≤ result) × OnChain (lent self.now.pattern.now) v result }
    {
        let high = k as u64;
        if indices(self.pattern.m) < k {
            return high;
        }
        let mut j = self.cells[v as usize];
        while high < j {
            j = self.cells[(255 + j) as usize];
        }
        j
    }

    // The link to try after j.
    fn next_link(&self, v: u8, j: u64) -> u64
        requires j_bound { (0 < j) × (j ≤ self.now.pattern.now.m) }
        requires on_chain { OnChain (lent self.now.pattern.now) v j }
        ensures { (result < j) × (last_shown (lent self.now.pattern.now) v (j - 1) ≤ result) × OnChain (lent self.now.pattern.now) v result }
    {
        let count = indices(self.pattern.m) as u64;
        if j <= count {
            return self.cells[(255 + j) as usize];
        }
        if j == count + 1 {
            return self.cells[v as usize];
        }
        j - 1
    }
}

impl Walk for Chains {
    ghost walking = { λ w v l. OnChain w v l.first };

    fn first(tables: &Tables<Chains>, v: u8, k: u32) -> Links {
        Links {
            first: tables.first_link(v, k),
            block: Block { number: 0, left: 0 },
        }
    }

    fn next(tables: &Tables<Chains>, v: u8, links: Links) -> Links
        requires some { (0 < links.first) × (links.first + 7 ≤ tables.now.pattern.now.m) }
        requires walking { OnChain (lent tables.now.pattern.now) v links.first }
        ensures { (result.first < links.first) × (last_shown (lent tables.now.pattern.now) v (links.first - 1) ≤ result.first) × OnChain (lent tables.now.pattern.now) v result.first }
    {
        Links {
            first: tables.next_link(v, links.first),
            ..links
        }
    }
}

// Words of flags.
pub struct Words;

impl Kind for Words {
    ghost use Rattle.matcher.specs.Tables.{WordTables};
    ghost use Rattle.skip_tables.specs.SkipChains.{word_tables_prop};

    ghost holds = { WordTables };

    ghost holds_prop = { word_tables_prop };
}

impl Tables<'_, Words> {
    // The flags of the 57 moves from 57 c on: the words of the byte's last and of its first four bits, and in the last block
    // those after index 0 cut off.
    pub fn flags(&self, v: u8, c: u32) -> u64
        requires { 57 * c + 8 ≤ self.now.pattern.now.m }
        ensures { Flags (lent self.now.pattern.now) v self.now.pattern.now.m (57 * c) result }
    {
        let at = (22 * c + 6) as usize;
        let last = self.cells[at + (v % 16) as usize];
        let first = self.cells[at + (v / 16) as usize];
        let both = last & (first >> 4);
        let left = self.pattern.m - 7 - 57 * c;
        if left < 57 {
            return both & (ALL >> (64 - left));
        }
        both
    }

    // The first block, with the flags of indices from k on cut off.
    pub fn first_block(&self, v: u8, k: u32) -> Block
        requires { (k + 7 ≤ self.now.pattern.now.m) × (self.now.pattern.now.m < k + 15) }
        ensures { Flagging (lent self.now.pattern.now) v k result.number result.left }
    {
        Block {
            number: 0,
            left: self.flags(v, 0) & (ALL << (self.pattern.m - 7 - k)),
        }
    }

    // The block or, where it has no flags left, the first one after it that has some.
    pub fn next_block(&self, v: u8, block: Block) -> Option<Block>
        requires { 57 * block.number + 8 ≤ self.now.pattern.now.m }
        ensures { MatchOption result ((k : ℕ) → Flagging (lent self.now.pattern.now) v k block.number block.left → k + 7 ≤ self.now.pattern.now.m → 0 ≡ last_shown (lent self.now.pattern.now) v k) (λ r. (block.number ≤ r.number) × (r.number ≡ block.number → r.left ≡ block.left) × (r.left ≡ 0 → ⊥) × ((k : ℕ) → Flagging (lent self.now.pattern.now) v k block.number block.left → Flagging (lent self.now.pattern.now) v k r.number r.left)) }
    {
        if block.left != 0 {
            return Some(block);
        }
        let mut number = block.number;
        while 57 * number + 65 <= self.pattern.m {
            number += 1;
            let left = self.flags(v, number);
            if left != 0 {
                return Some(Block { number, left });
            }
        }
        None
    }

    // The link of the lowest flag, in the first block from this one on that has one.
    fn lowest(&self, v: u8, k: u32, block: Block) -> Links
        requires few { k + 7 ≤ self.now.pattern.now.m }
        requires flagging { Flagging (lent self.now.pattern.now) v k block.number block.left }
        ensures { (result.first ≡ last_shown (lent self.now.pattern.now) v k) × FlagsAfter (lent self.now.pattern.now) v result.first result.block.number result.block.left }
    {
        match self.next_block(v, block) {
            None => Links { first: 0, block },
            Some(next) => Links {
                first: (self.pattern.m - 7 - 57 * next.number - next.left.trailing_zeros()) as u64,
                block: Block {
                    left: next.left & (next.left - 1),
                    ..next
                },
            },
        }
    }
}

impl Walk for Words {
    ghost walking = { λ w v l. FlagsAfter w v l.first l.block.number l.block.left };

    fn first(tables: &Tables<Words>, v: u8, k: u32) -> Links {
        tables.lowest(v, k, tables.first_block(v, k))
    }

    fn next(tables: &Tables<Words>, v: u8, links: Links) -> Links
        requires some { (0 < links.first) × (links.first + 7 ≤ tables.now.pattern.now.m) }
        requires walking { FlagsAfter (lent tables.now.pattern.now) v links.first links.block.number links.block.left }
        ensures { (result.first < links.first) × (last_shown (lent tables.now.pattern.now) v (links.first - 1) ≤ result.first) × FlagsAfter (lent tables.now.pattern.now) v result.first result.block.number result.block.left }
    {
        tables.lowest(v, (links.first - 1) as u32, links.block)
    }
}
