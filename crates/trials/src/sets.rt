// Drawn calls for a set of patterns: whole ones, lists of calls from mark to mark, the refusals and their neighbours, and
// one pattern by itself beside the plain method. Each pattern is drawn as one by itself is, at the front of the buffer, and
// then laid to its place.
use crate::call::{ALL, Call, single};
use crate::drawn::{draw_pattern, draw_runs, draw_text};
use crate::naive::figure;
use crate::naive_set;
use crate::naive_set::paired;
use crate::run::{Run, Total, hits};
use crate::set_call::{CELLS, COUNTS, SET_BIT, SET_BYTES, SET_FIXED_BIT, SetCall, judged};
use draws::cells::{get, put};
use draws::draw::{choose, draw};
use draws::judged::Judged;
use draws::number::ceiling;
use draws::packed;
use draws::packed::{BYTES, FIXED_BIT};
use search::Method;

// What a case is: a single call, a list of calls, one of the refusals or a neighbour, or one pattern beside the plain method.
#[derive(Clone, Copy, PartialEq, Eq)]
pub(crate) enum Kind {
    Whole,
    Calls,
    Refusals,
    OnePattern,
}

// How many patterns there are, of every class: none and one too many, which only the refusals draw, out of 10; and one, two,
// 63, 64 and any number.
const SIZES: [(usize, usize); 7] = [(0, 1), (65, 1), (1, 1), (2, 1), (63, 1), (64, 1), (1, 64)];

// Whether all patterns are to be about as long as they may be: once in 32 sets.
fn long(x: usize) -> bool {
    draw(x, 30, 32) == 0
}

// Lengths of the text of every class, out of 12; the first one is for long patterns.
const TEXTS: [(usize, usize); 5] = [(2040, 120), (0, 1), (1, 40), (1, 500), (1, 130)];

fn text_length(x: usize) -> usize {
    let classes = if long(x) { 1 } else { 12 };
    choose(&TEXTS, draw(x, 53, classes), x, 54)
}

// Drawn bytes where the text and one pattern lie, and then the text.
fn fill_front(s: &mut [u8; SET_BYTES], n: usize, x: usize) {
    packed::fill(&mut s[..BYTES], x);
    draw_text(s, n, x);
}

// Lengths of a pattern of every class, out of 24: the longest ones; a bit and eight; those about 32, where the tables end, and
// about 64; longer ones; and mostly short ones, which occur often.
const LENGTHS: [(usize, usize); 8] = [
    (2041, 8),
    (1, 1),
    (8, 1),
    (30, 6),
    (62, 5),
    (13, 60),
    (100, 300),
    (1, 12),
];

// Whether the pattern after one of m bits is drawn anew. Once in four draws it is not: it begins as the one before.
fn fresh(m: usize, y: usize) -> bool {
    m == 0 || 2 < draw(y, 40, 12)
}

// The length of the pattern after one of m bits: a drawn one; or as many bits, so that the two are equal, or more, or fewer.
fn next_length(m: usize, x: usize, y: usize) -> usize {
    if fresh(m, y) {
        let classes = if long(x) { 1 } else { 24 };
        return choose(&LENGTHS, draw(y, 41, classes), y, 42);
    }
    match draw(y, 40, 12) {
        0 => m,
        1 => m.wrapping_add(draw(y, 43, 9)).min(2048),
        _ => draw(y, 43, m).wrapping_add(1),
    }
}

// The next pattern, at the front of the buffer: its length.
fn next_pattern(s: &mut [u8], n: usize, m: usize, x: usize, y: usize) -> usize {
    let more = next_length(m, x, y);
    if fresh(m, y) {
        draw_pattern(s, n, more, y);
        draw_runs(draw(y, 44, 3) == 2, s, more, y);
    }
    more
}

// Lays the pattern at the front, of m bits, and its second run to a bit of the set's runs, with all bits of the last byte and
// two bytes of junk more.
fn lay(s: &mut [u8], m: usize, at: usize) {
    let k = ceiling(m).wrapping_add(2).wrapping_mul(8);
    packed::copy(s, 0, at.wrapping_add(SET_BIT), k);
    packed::copy(s, FIXED_BIT, at.wrapping_add(SET_FIXED_BIT), k);
}

// A pattern for each bit count, which is drawn too, for a text of n bits; and how many bytes they take.
fn draw_set(s: &mut [u8], counts: &mut [u64], n: usize, x: usize) -> usize {
    let mut m = 0;
    let mut bytes: usize = 0;
    for (i, count) in counts.iter_mut().enumerate() {
        let y = draw(x, i.wrapping_add(300), usize::MAX);
        m = next_pattern(s, n, m, x, y);
        *count = m as u64;
        lay(s, m, bytes.wrapping_mul(8));
        bytes = bytes.wrapping_add(ceiling(m));
    }
    bytes
}

// Budgets of every class: none, one step, some, and every step.
const BUDGETS: [(usize, usize); 4] = [(0, 1), (1, 1), (2, 60), (ALL, 1)];

// Cells of the list of every class, out of 10: none, and few, an odd number too; some, more, and all.
const ROOMS: [(usize, usize); 7] = [
    (0, 1),
    (1, 1),
    (2, 1),
    (3, 1),
    (0, 20),
    (0, 300),
    (CELLS, 1),
];

// How many patterns a call has: one beside the plain method, and else a drawn number, by its class.
fn drawn_size(kind: Kind, x: usize) -> usize {
    match kind {
        Kind::Refusals => choose(&SIZES, draw(x, 50, 10), x, 51),
        Kind::OnePattern => 1,
        Kind::Whole | Kind::Calls => choose(&SIZES[2..], draw(x, 50, 8), x, 51),
    }
}

// Bits of the text of every class, out of 16, for the refusals: the greatest number, for which bytes are missing, and greater
// ones; else those that are there.
fn drawn_bits(kind: Kind, n: usize, x: usize) -> usize {
    if kind != Kind::Refusals {
        return n;
    }
    match draw(x, 52, 16) {
        0 => 1073741824,
        1 => 1073741825,
        2 => usize::MAX,
        _ => n,
    }
}

// Bit counts of a pattern at their edges, and beyond.
const EDGES: [(usize, usize); 5] = [(0, 1), (2048, 1), (2049, 1), (usize::MAX, 1), (2050, 3000)];

// For the refusals, once in four draws, the count of some pattern becomes another one, and those after it begin elsewhere.
fn change_count(kind: Kind, counts: &mut [u64], x: usize) {
    let class = draw(x, 63, 20);
    if kind == Kind::Refusals && class < 5 {
        let i = draw(x, 64, counts.len());
        put(counts, i, choose(&EDGES, class, x, 65) as u64);
    }
}

// Bytes that are lent, of which k are needed: enough.
fn enough(k: usize, x: usize, d: usize) -> usize {
    k.wrapping_add(draw(x, d.wrapping_add(1), 3))
}

// Or of every class, out of 16: one too few, any number up to enough, and enough.
fn any_bytes(k: usize, x: usize, d: usize) -> usize {
    match draw(x, d, 16) {
        0 => k.saturating_sub(1),
        1 => draw(x, d.wrapping_add(1), k.wrapping_add(1)),
        _ => enough(k, x, d),
    }
}

// For single calls and for the first call of a list there are enough.
fn drawn_bytes(kind: Kind, k: usize, x: usize, d: usize) -> usize {
    match kind {
        Kind::Whole | Kind::Calls => enough(k, x, d),
        Kind::Refusals | Kind::OnePattern => any_bytes(k, x, d),
    }
}

// A mark of every class, out of 16, or out of 8 for the refusals: E, the one after it, the greatest one, one of the places or
// E, and the first.
fn drawn_mark(kind: Kind, end: usize, x: usize) -> usize {
    let classes = if kind == Kind::Refusals { 8 } else { 16 };
    match draw(x, 60, classes) {
        0 => end,
        1 => end.wrapping_add(1),
        2 => ALL,
        3..=6 => draw(x, 61, end.wrapping_add(1)),
        _ => 0,
    }
}

// A budget of a class, or just enough for the places that are left, or one more or one less.
fn drawn_budget(left: usize, x: usize) -> usize {
    let class = draw(x, 57, 10);
    match class {
        0 => left,
        1 => left.wrapping_add(1),
        2 => left.saturating_sub(1),
        _ => choose(&BUDGETS, class - 3, x, 58),
    }
}

// The call of a kind for a drawn text and set, of which the patterns take so many bytes. All cells are lent.
fn drawn_call(kind: Kind, n: usize, bytes: usize, x: usize, counts: &[u64]) -> SetCall<'_> {
    let all = SetCall {
        n: drawn_bits(kind, n, x),
        text: drawn_bytes(kind, ceiling(n), x, 70),
        counts,
        patterns: drawn_bytes(kind, bytes, x, 72),
        fixed: drawn_bytes(kind, bytes, x, 74),
        mark: 0,
        budget: 0,
        room: CELLS,
    };
    let end = naive_set::end(all);
    let mark = drawn_mark(kind, end, x);
    SetCall {
        mark,
        budget: drawn_budget(end.saturating_sub(mark), x),
        ..all
    }
}

// Cells of the list: of a class, or, once in four draws, just those that the call's pairs take, or one more or one less.
fn drawn_room(c: SetCall<'_>, x: usize, s: &[u8], list: &[u32]) -> usize {
    if 0 < draw(x, 55, 4) {
        return choose(&ROOMS, draw(x, 59, 10), x, 62);
    }
    let pairs = hits(naive_set::search(c, s, list));
    let near = pairs.wrapping_mul(2).wrapping_add(draw(x, 62, 3));
    near.saturating_sub(1).min(CELLS)
}

// The cells that so many pairs take.
fn cells_of(pairs: usize) -> usize {
    pairs.wrapping_mul(2)
}

// The next call of a list, of which so many are left, has a budget, cells and bytes of its own: a call has 16 draws. No more
// cells are lent than are left.
fn next_call<'a>(first: SetCall<'a>, t: Total, x: usize, left: usize) -> SetCall<'a> {
    let d = left % 16 * 16 + 64;
    let room = choose(&ROOMS, draw(x, d + 2, 10), x, d + 3);
    SetCall {
        mark: t.mark,
        budget: choose(&BUDGETS, draw(x, d, 6), x, d + 1),
        room: room.min(CELLS.saturating_sub(cells_of(t.hits))),
        fixed: any_bytes(first.fixed, x, d + 4),
        ..first
    }
}

// The claim about the whole list, whose first mark is 0: its cells hold all hits before the last mark, each once, and as many
// were written; the last accepted call said done just if the last mark is E; and the steps are as many as the places decided.
fn claimed(first: SetCall<'_>, t: Total, s: &[u8], list: &[u32]) -> bool {
    let whole = SetCall {
        mark: 0,
        budget: t.mark,
        room: cells_of(t.hits),
        ..first
    };
    let over = t.mark == naive_set::end(whole);
    t.is_as(naive_set::search(whole, s, list), over) && t.steps == t.mark
}

// Twelve calls from mark to mark. Each is lent cells after those that the calls before it wrote, so that the list holds all
// of it, joined.
fn joined(first: SetCall<'_>, x: usize, s: &[u8], list: &mut [u32]) -> bool {
    let mut t = Total::new();
    for made in 0..12 {
        let c = next_call(first, t, x, 12 - made);
        let start = cells_of(t.hits).min(list.len());
        t = t.with(judged(c, x, s, &mut list[start..]));
    }
    claimed(first, t, s, list)
}

// A set of one pattern, which still lies at the front too, comes to what the plain method comes to on half as many cells,
// rounded down; and the pairs are the places of its list, each with number 0.
fn as_plain(c: SetCall<'_>, call: Judged<Run>, x: usize, s: &[u8], list: &[u32]) -> bool {
    let m = get(c.counts, 0) as usize;
    let mut other = [0u32; CELLS];
    let plain = single(
        Call {
            n: c.n,
            text: c.text,
            m,
            pattern: c.patterns,
            fixed: c.fixed,
            method: Method::Plain,
            mark: c.mark,
            budget: c.budget,
            room: c.room / 2,
            scratch: figure(Method::Plain, m),
        },
        x,
        s,
        &mut other,
    );
    plain.good
        && call.answer == plain.answer
        && (0..hits(call)).all(|i| paired(list, i, get(&other, i), 0))
}

// A case over its buffers.
pub(crate) fn one(kind: Kind, x: usize) -> bool {
    let mut s = [0u8; SET_BYTES];
    let mut counts = [0u64; COUNTS];
    let mut list = [0u32; CELLS];
    let n = text_length(x);
    let counts = &mut counts[..drawn_size(kind, x).min(COUNTS)];
    fill_front(&mut s, n, x);
    let bytes = draw_set(&mut s, counts, n, x);
    change_count(kind, counts, x);
    let all = drawn_call(kind, n, bytes, x, counts);
    let room = drawn_room(all, x, &s, &list);
    let c = SetCall { room, ..all };
    if kind == Kind::Calls {
        return joined(c, x, &s, &mut list);
    }
    let call = judged(c, x, &s, &mut list);
    call.good && (kind != Kind::OnePattern || as_plain(c, call, x, &s, &list))
}
