// The tail method (BNDM). A step decides one place s by its window, the m bits of the text from s on. The pattern can begin
// later inside the window only where its first bits are the window's last: let r be the greatest number of bits below m for
// which that is so. No occurrence lies between s and s + m - r, and that is the next mark.
//
// BNDM finds r by reading the window from the right for as long as it is some part of the pattern. The rule fixes r, not how
// it is found, and here all lengths are looked at together, one bit of a word for each: bit r of a word stands for length r.
// The pattern's bit j rules length r out if r is above j and the window has another bit there, which is its bit r - 1 - j
// from the right. So the window, moved up by j + 1 and XORed with a word that depends on the pattern's bit alone, has a 1 for
// each length that bit j leaves. Eight bits of the pattern leave few lengths, and these are compared, the longest first.
//
// In a text with few ones a pattern often begins with a long run of zeros, which rules little out. So the eight bits are the
// first ones or, where the pattern begins with a longer run, those that end with the first bit after the run; and the
// lengths inside the run are decided by the run at the window's end.
//
// Cell 0 of the table is the mask for text bits of 0, cell 1 that for text bits of 1: bit j from the left is 1 where the
// pattern has that bit at index j, or a wild one. Both are 1 just at its wild bits. A wild bit rules no length out: the run
// that decides lengths ends before it, and the eight bits are twice four in a row without one.
#![tactic(auto)]

ghost use Rattle.std.specs.Prelude.{◌≡◌, ◌^◌, ◌≤◌, ◌<◌};
ghost use Rattle.bits.specs.Packed.{bits_at};
ghost use Rattle.rules.specs.Occurrence.{places};
ghost use Rattle.matcher.specs.Asked.{text_in, pattern_in};
ghost use Rattle.matcher.specs.Gives.{AdvanceGives};
ghost use Rattle.tail.specs.Lengths.{OneStep, Longest, spread_of, every_bit, FirstRun, Four, left_by_four, Spread, Made, Keeps, Top, Differs, Settled};

use bits::{ByteNo, Place, load};
use matcher::query::Pattern;
use matcher::search::{Rule, Search};
use matcher::steps::{Full, Matcher, Reached};
use rules::Method;

const ALL: u64 = 18446744073709551615;

// The tail method.
pub struct Tail;

impl Rule for Tail {
    ghost use Rattle.rules.specs.declared.Method.TheVariants as methods;

    ghost method = { methods.Tail };
}

// The m bits of the bytes from s on, at most 64. One machine load shows up to 57 bits wherever in its byte s lies.
fn window(bytes: &[u8], m: u32, s: Place) -> u64
    requires { (0 < m) × (m ≤ 64) }
    ensures { result ≡ bits_at bytes.now s.0 m }
{
    if s.byte().0 + 9 <= bytes.len() {
        if m <= 57 {
            return load::head_inside(bytes, s) >> (64 - m);
        }
        return load::word_inside(bytes, s) >> (64 - m);
    }
    load::word_at(bytes, s) >> (64 - m)
}

// What the window, moved up by j + 1, is XORed with for the pattern's bit j: ones for each length that is not above j, and
// for the others the pattern's bit turned over. No length is above 63.
fn spread(zeros: u64, j: u32) -> u64
    ensures { result ≡ spread_of zeros j }
{
    if 63 <= j {
        return ALL;
    }
    if (zeros >> (63 - j)) % 2 == 1 {
        return ALL;
    }
    ALL >> (63 - j)
}

// Bit j of a word in every bit.
fn every_bit(word: u64, j: u32) -> u64
    requires { j < 64 }
    ensures { result ≡ every_bit word j }
{
    if (word >> (63 - j)) % 2 == 1 {
        return ALL;
    }
    0
}

// How many bits at the front of a word are not wild and like its first one, at most 63. Fewer would be right too, and rule out
// less.
fn first_run(word: u64, flip: u64, care: u64) -> u32
    ensures { FirstRun word flip care result }
{
    ((word ^ flip) | (ALL ^ care)).leading_zeros().min(63)
}

// Where to look for the eight bits: at the beginning, or, where all bits at the front are alike or wild, so that eight bits
// end with the first one that is neither. Any eight bits are right; these rule out most.
fn start(ones: u64, care: u64) -> u32
    ensures { result ≤ 56 }
{
    let flip = every_bit(ones, (care | 1).leading_zeros());
    let alike = (((ones ^ flip) & care) | 1).leading_zeros();
    alike.saturating_sub(7)
}

// The first index, of those with a 1 in `later`, from which on four bits in a row are not wild; where there is none, 63, from
// which on no bit rules a length out.
fn four(care: u64, later: u64) -> u32
    ensures { Four care result }
{
    let two = care & (care << 1);
    (two & (two << 2) & later).leading_zeros().min(63)
}

// The longest of the lengths d; length 0 is always one.
fn top(d: u64) -> u32
    ensures { Top d result }
{
    63 - (d | 1).leading_zeros()
}

// The first index at which the pattern is fixed and differs from the last r bits of the window, if that is below r. It takes two
// of the masks and not all, as does the next: of a word that is a parameter the check knows that it has 64 bits.
fn first_difference(ones: u64, care: u64, x: u64, r: u32) -> u32
    requires { r < 64 }
    ensures { Differs ones care x r result }
{
    ((ones ^ ((x << (63 - r)) << 1)) & care).leading_zeros()
}

// The greatest of the lengths d at which the pattern's first bits are the window's last, the longest first.
fn compare_down(ones: u64, care: u64, x: u64, d: u64) -> u32
    ensures { Settled ones care x d result }
{
    let mut left = d;
    let mut r = top(left);
    let mut j = first_difference(ones, care, x, r);
    while j < r {
        left &= ALL >> (64 - r);
        r = top(left);
        j = first_difference(ones, care, x, r);
    }
    r
}

// Four bits of the pattern from bit `from` on, each spread over a word. They are no array, since each is taken by itself.
#[derive(Clone, Copy)]
struct FourBits {
    from: u32,
    b0: u64,
    b1: u64,
    b2: u64,
    b3: u64,
}

impl FourBits {
    fn new(zeros: u64, from: u32) -> FourBits
        requires { from ≤ 63 }
        ensures { (result.from ≡ from) × Spread zeros result }
    {
        FourBits {
            from,
            b0: spread(zeros, from),
            b1: spread(zeros, from + 1),
            b2: spread(zeros, from + 2),
            b3: spread(zeros, from + 3),
        }
    }

    // The lengths that the four bits leave.
    fn left(&self, x: u64) -> u64
        requires { self.now.from ≤ 63 }
        ensures { result ≡ left_by_four self.now x }
    {
        let y = x << self.from;
        ((y << 1) ^ self.b0) & ((y << 2) ^ self.b1) & ((y << 3) ^ self.b2) & ((y << 4) ^ self.b3)
    }
}

// What the steps of a call share: the pattern's bit count and its masks; a 0 for each of its wild bits in `care`; a 1 for each
// length below the bit count in `below`; its first bit, in every bit of `flip`; a 1 for each length above its first run in
// `past`; and eight of its bits, twice four in a row. `Made` says what they are. It stands in the clauses: as ghost fields it
// would be no plainer, since its definitions speak of these two structs, and would have to be put into files apart from them.
#[derive(Clone, Copy)]
struct Masks {
    m: u32,
    zeros: u64,
    ones: u64,
    care: u64,
    below: u64,
    flip: u64,
    past: u64,
    first: FourBits,
    second: FourBits,
}

impl Masks {
    fn new(m: u32, zeros: u64, ones: u64) -> Masks
        requires { (0 < m) × (m ≤ 64) }
        ensures given { (result.m ≡ m) × (result.zeros ≡ zeros) × (result.ones ≡ ones) × (ones < 2 ^ 64) }
        ensures made { Made result }
    {
        let care = ALL ^ (zeros & ones);
        let flip = every_bit(ones, 0);
        let run = first_run(ones, flip, care);
        let from = four(care, ALL >> start(ones, care));
        let other = four(care, (ALL >> from) >> 4);
        Masks {
            m,
            zeros,
            ones,
            care,
            below: ALL >> (64 - m),
            flip,
            past: (ALL << run) << 1,
            first: FourBits::new(zeros, from),
            second: FourBits::new(zeros, other),
        }
    }

    // The lengths below m that eight bits of the pattern and its first run leave.
    fn lengths_left(&self, x: u64) -> u64
        requires { (self.now.m ≤ 64) × Made self.now }
        ensures { Keeps self.now.m self.now.zeros self.now.ones x result }
    {
        let end = (x ^ self.flip) | 9223372036854775808;
        self.first.left(x) & self.second.left(x) & (self.past | (end ^ (end - 1))) & self.below
    }

    // The greatest length below m such that the pattern's first bits are the last ones of the window x. It is a call, so that the
    // loop over the steps keeps its variables in registers: on a regular text it runs without this.
    #[inline(never)]
    fn longest(&self, x: u64) -> u32
        requires { (0 < self.now.m) × (self.now.m ≤ 64) × Made self.now }
        ensures { Longest self.now.m self.now.zeros self.now.ones x result }
    {
        compare_down(self.ones, self.care, x, self.lengths_left(x))
    }
}

// At most so many steps. What a window tells, how far the mark moves and whether the pattern stands there, holds for the next
// window too if that is the same: on a regular text the processor then knows the next place without waiting for the length.
//
// A function with two callers is not inlined, and one with a single caller is. So that the loop has all registers, one step is
// made here too; and so that `window` is inlined in the loop, the first window is loaded without it. The steps are counted by
// hand, since a `for` would keep the count to itself.
fn scan(search: &Search<Tail>, s: Place, budget: u32, list: &mut [u32]) -> Result<Reached, Full>
    requires { s.0 ≤ places (text_in search.now.query) (pattern_in search.now.query) }
    ensures advanced { AdvanceGives Method.Tail (text_in search.now.query) (pattern_in search.now.query) s.0 budget list.old result list.new }
    ensures one_step { OneStep (text_in search.now.query) (pattern_in search.now.query) s.0 budget list.old result list.new }
{
    let query = &search.query;
    let text = query.text;
    let m = query.pattern.m;
    let end = query.n - m + 1;
    let k = Masks::new(m, search.cells[0], search.cells[1]);
    let whole = k.ones >> (64 - m);
    let care = k.care >> (64 - m);
    let mut last = load::word_at(text, s) >> (64 - m);
    let mut far = m - k.longest(last);
    let mut found = (last ^ whole) & care == 0;
    let mut at = s.0;
    let mut steps = 0u32;
    let mut hits = 0usize;
    while at < end && steps < budget {
        let x = window(text, m, Place(at));
        if x != last {
            far = m - k.longest(x);
            found = (x ^ whole) & care == 0;
            last = x;
        }
        if found {
            if list.len() <= hits {
                return Err(Full(Reached {
                    at: Place(at),
                    steps,
                    hits,
                }));
            }
            list[hits] = at;
            hits += 1;
        }
        steps += 1;
        at += far;
    }
    Ok(Reached {
        at: Place(matcher::cut(at, end)),
        steps,
        hits,
    })
}

impl Matcher for Tail {
    // Makes the two masks: a wild bit is 1 in both.
    fn prepare(pattern: &Pattern, cells: &mut [u64]) {
        let Pattern { bytes, fixed, m } = *pattern;
        let inside = ALL << (64 - m);
        let care = load::word_near_end(fixed, ByteNo(0)) & inside;
        let ones = load::word_near_end(bytes, ByteNo(0)) & care;
        cells[0] = inside ^ ones;
        cells[1] = ones | (inside ^ care);
    }

    // The place is found just if the window agrees with the pattern.
    fn step(search: &Search<Tail>, s: Place, list: &mut [u32]) -> Result<Reached, Full> {
        scan(search, s, 1, list)
    }

    // With no budget no masks are made.
    fn advance(
        search: &Search<Tail>,
        s: Place,
        budget: u32,
        list: &mut [u32],
    ) -> Result<Reached, Full> {
        if budget == 0 {
            return Ok(Reached {
                at: s,
                steps: 0,
                hits: 0,
            });
        }
        scan(search, s, budget, list)
    }
}
