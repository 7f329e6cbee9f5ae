// The wide method: a step decides 64 places at once. Flag i stands for place s + i, and the window, the 63 + m bits of the
// text from s on, holds all of these places. Window bit q lets flag i fall if the pattern's bit at index q - i is fixed and
// another one; cell 2 q + c of the table holds the flags that it leaves standing if it is c. Cells may be ANDed in any
// order, and few window bits leave few flags: those are settled by comparison, lowest first. The bit after the window tells
// how far the next mark lies ahead: where the last index of the pattern that agrees with that bit lies on it.
#![tactic(auto)]

ghost use Rattle.std.specs.Prelude.{◌≡◌, ◌+◌, ◌*◌, ◌≤◌, ◌<◌, length};
ghost use Rattle.bits.specs.Packed.{bytes_for};
ghost use Rattle.rules.specs.Occurrence.{places};
ghost use Rattle.rules.specs.Step.{next};
ghost use Rattle.wide.specs.Flags.{StartsByte, Enters, Entered, Moves, within, second, Applies, Flagged, Scanned};
ghost use Rattle.matcher.specs.Asked.{lent, text_in, pattern_in};
ghost use Rattle.matcher.specs.Gives.{StepGives};

use bits::{ByteNo, Place, bit, load};
use matcher::query::Pattern;
use matcher::search::{Rule, Search};
use matcher::steps::{Full, Matcher, Reached};
use rules::Method;

// The wide method.
pub struct Wide;

impl Rule for Wide {
    ghost use Rattle.rules.specs.declared.Method.TheVariants as methods;

    ghost method = { methods.Wide };
}

// Every flag stands.
const ALL: u64 = 18446744073709551615;

// Two values: one for bits of the text that are 0, and one for those that are 1.
#[derive(Clone, Copy)]
struct ByBit<T> {
    zero: T,
    one: T,
}

// Flag 0 of each of the eight window bits from q on, the first bit highest. A bit of the pattern leaves it standing where it
// is wild or the window bit is the same; after the pattern every bit does.
fn entering(pattern: &Pattern, q: u32) -> ByBit<u64>
    requires { (bytes_for pattern.now.m ≤ length pattern.now.bytes.now) × (bytes_for pattern.now.m ≤ length pattern.now.fixed.now) × StartsByte q × (q ≤ 4096) }
    ensures { Enters (lent pattern.now) 0 q result.zero × Enters (lent pattern.now) 1 q result.one }
{
    let Pattern { bytes, fixed, m } = *pattern;
    if m <= q {
        return ByBit {
            zero: 255,
            one: 255,
        };
    }
    let at = Place(q).byte().0;
    let b = u64::from(bytes[at]);
    let mut free = 255 - u64::from(fixed[at]);
    if m < q + 8 {
        free |= 255 >> (m - q);
    }
    ByBit {
        zero: (255 - b) | free,
        one: b | free,
    }
}

// Makes the cells of k window bits from q on. The flags of each are those before bit q, moved up, and below them a new flag
// of each bit from q on.
fn enter(q: u32, k: usize, flags: ByBit<u64>, new: ByBit<u64>, cells: &mut [u64])
    requires { (k ≤ 8) × (q ≤ 4096) × (2 * (q + k) ≤ length cells.old) }
    ensures { Entered cells.old cells.new q k flags.zero flags.one new.zero new.one }
{
    let at = 2 * q as usize;
    for r in 0..k {
        let up = r + 1;
        let down = 7 - r;
        cells[at + 2 * r] = (flags.zero << up) | (new.zero >> down);
        cells[at + 2 * r + 1] = (flags.one << up) | (new.one >> down);
    }
}

// How far the next mark lies ahead where the bit after the window is c. The flags of the window bit at the highest index
// not yet looked at tell of 64 indices, the lowest flag of the greatest; k is one more than that index.
fn move_of(search: &Search<Wide>, c: u32) -> u32
    requires { c < 2 }
    ensures { Moves search.now.query.pattern.m search.now.cells.now c result }
{
    let m = search.query.pattern.m;
    let mut k = m;
    let mut i = 64u32;
    while 0 < k && i == 64 {
        i = search.cells[(2 * (k - 1) + c) as usize].trailing_zeros();
        k = k.saturating_sub(i);
    }
    64 + m - k
}

// Both moves.
fn moves(search: &Search<Wide>) -> ByBit<u32>
    ensures { Moves search.now.query.pattern.m search.now.cells.now 0 result.zero × Moves search.now.query.pattern.m search.now.cells.now 1 result.one }
{
    ByBit {
        zero: move_of(search, 0),
        one: move_of(search, 1),
    }
}

// The window's byte from bit q on is applied to the flags, by the cells of its eight bits.
fn keep8(search: &Search<Wide>, s: Place, q: u32, flags: u64) -> u64
    requires { (q + 8 ≤ 63 + search.now.query.pattern.m) × (s.0 + 63 + search.now.query.pattern.m ≤ search.now.query.n) }
    ensures { Applies search.now.query.text.now search.now.cells.now s.0 (within q (q + 8)) flags result }
{
    let from = q as usize;
    let x = load::byte_inside(search.query.text, Place(s.0 + q));
    let mut f = flags;
    for j in 0..8usize {
        f &= search.cells[2 * (from + j) + (x >> (7 - j)) % 2];
    }
    f
}

// Every second byte of the window from bit `from` on is applied to the flags, before bit 80. Where `from` is known the loop
// is unrolled, and a call would cost a fifth more time.
#[inline(always)]
fn pass(search: &Search<Wide>, s: Place, from: u32, flags: u64) -> u64
    requires { StartsByte from × (from ≤ 8) × (s.0 + 63 + search.now.query.pattern.m ≤ search.now.query.n) }
    ensures { Applies search.now.query.text.now search.now.cells.now s.0 (second search.now.query.pattern.m from) flags result }
{
    let m = search.query.pattern.m;
    let mut f = flags;
    for round in 0..5u32 {
        let q = from + 16 * round;
        if m + 63 < q + 8 {
            break;
        }
        f = keep8(search, s, q, f);
    }
    f
}

// Flags for the 64 places from s on, by rounds of window bits. In a pattern below 64 bits no window bit speaks for all flags:
// the rounds are every second byte, and then the others. In a longer one the bits from 56 on speak for nearly all, and a
// round is two bytes of them. Where at most one flag stands, and mostly none does, a further round would cost more than a
// comparison. The window is looked at only where the text goes on after it, so that no load needs a test for the end. In the
// last step, where it does not, no round is made, and the flags of all places that are left stand.
fn scan(search: &Search<Wide>, s: Place) -> u64
    requires { s.0 < places (text_in search.now.query) (pattern_in search.now.query) }
    ensures { Scanned (text_in search.now.query) search.now.query.pattern.m search.now.cells.now s.0 result }
{
    let m = search.query.pattern.m;
    let n = search.query.n;
    let until = s.0 + 63 + m;
    if n <= until {
        return ALL >> (until - n);
    }
    if m < 64 {
        let half = pass(search, s, 0, ALL);
        if half.count_ones() < 2 {
            return half;
        }
        return pass(search, s, 8, half);
    }
    let mut f = ALL;
    for round in 0..(m + 7) / 16 {
        let q = 56 + 16 * round;
        f = keep8(search, s, q, f);
        f = keep8(search, s, q + 8, f);
        if f == 0 {
            return 0;
        }
        if f.count_ones() < 2 {
            return f;
        }
    }
    f
}

// The mark after the step at s: E in the last step, else by the bit after the window. That is a product and no branch: a
// processor cannot predict the bits of a text.
fn next_mark(search: &Search<Wide>, by_bit: ByBit<u32>, s: Place) -> Place
    requires inside { s.0 < places (text_in search.now.query) (pattern_in search.now.query) }
    requires moves { Moves search.now.query.pattern.m search.now.cells.now 0 by_bit.zero × Moves search.now.query.pattern.m search.now.cells.now 1 by_bit.one }
    ensures { result.0 ≡ next Method.Wide (text_in search.now.query) (pattern_in search.now.query) s.0 }
{
    let at = s.0;
    let m = search.query.pattern.m;
    let n = search.query.n;
    let end = n - m + 1;
    let after = at + 63 + m;
    if after < n {
        let c = u32::from(bit::bit(search.query.text, Place(after)));
        let ahead = at + ((1 - c) * by_bit.zero + c * by_bit.one);
        return Place(ahead.min(end));
    }
    Place(end)
}

// Takes the flags lowest first, and writes the places at which the pattern stands.
fn settle(
    search: &Search<Wide>,
    s: Place,
    to: Place,
    flags: u64,
    list: &mut [u32],
) -> Result<Reached, Full>
    requires inside { s.0 < places (text_in search.now.query) (pattern_in search.now.query) }
    requires flagged { Flagged (text_in search.now.query) (pattern_in search.now.query) s.0 flags }
    requires to_value { to.0 ≡ next Method.Wide (text_in search.now.query) (pattern_in search.now.query) s.0 }
    ensures { StepGives Method.Wide (text_in search.now.query) (pattern_in search.now.query) s.0 list.old result list.new }
{
    let mut at = s.0;
    let mut f = flags;
    let mut hits = 0usize;
    while f != 0 {
        let i = f.trailing_zeros();
        let p = at + i;
        f = (f >> i) >> 1;
        at = p + 1;
        if search.query.same(Place(p)) {
            if list.len() <= hits {
                return Err(Full(Reached {
                    at: Place(p),
                    steps: 0,
                    hits,
                }));
            }
            list[hits] = p;
            hits += 1;
        }
    }
    Ok(Reached {
        at: to,
        steps: 1,
        hits,
    })
}

impl Matcher for Wide {
    // The table, eight window bits at a time. The last ones, fewer than eight, lie after the pattern.
    fn prepare(pattern: &Pattern, cells: &mut [u64]) {
        let count = pattern.m + 63;
        let mut flags = ByBit {
            zero: ALL,
            one: ALL,
        };
        let whole = Place(count).byte();
        for byte in 0..whole.0 {
            let q = ByteNo(byte).place().0;
            let new = entering(pattern, q);
            enter(q, 8, flags, new, cells);
            flags = ByBit {
                zero: (flags.zero << 8) | new.zero,
                one: (flags.one << 8) | new.one,
            };
        }
        let after = ByBit {
            zero: 255,
            one: 255,
        };
        let rest = Place(count).offset() as usize;
        enter(whole.place().0, rest, flags, after, cells);
    }

    // The flags of the step's 64 places, and those that stand settled by comparison.
    fn step(search: &Search<Wide>, s: Place, list: &mut [u32]) -> Result<Reached, Full> {
        let to = next_mark(search, moves(search), s);
        let flags = scan(search, s);
        settle(search, s, to, flags, list)
    }

    // Both moves are made once for all steps, and a step whose flags all fell has nothing to settle.
    fn advance(
        search: &Search<Wide>,
        s: Place,
        budget: u32,
        list: &mut [u32],
    ) -> Result<Reached, Full> {
        let end = search.query.n - search.query.pattern.m + 1;
        let by_bit = moves(search);
        let mut at = s.0;
        let mut steps = 0u32;
        let mut hits = 0usize;
        while at < end && steps < budget {
            let from = Place(at);
            let to = next_mark(search, by_bit, from);
            let flags = scan(search, from);
            if flags != 0 {
                match settle(search, from, to, flags, &mut list[hits..]) {
                    Ok(settled) => hits += settled.hits,
                    Err(Full(cut)) => {
                        return Err(Full(Reached {
                            at: cut.at,
                            steps,
                            hits: hits + cut.hits,
                        }));
                    }
                }
            }
            steps += 1;
            at = to.0;
        }
        Ok(Reached {
            at: Place(at),
            steps,
            hits,
        })
    }
}
