// Drawn calls of the search: a method whole, the text and the pattern of a list of calls, and the edges of the refusals.
// Each choice has a draw of its own, by its index.
use crate::call::{ALL, Call, METHODS, single};
use crate::calls::joined;
use crate::naive;
use crate::single::cells_told;
use crate::wild::{change_free, second_run};
use draws::draw::{choose, draw};
use draws::number::ceiling;
use draws::packed;
use draws::packed::{BYTES, TEXT_BIT};
use search::Method;

// The cells of the list.
pub(crate) const CELLS: usize = 4400;

// Lengths of the pattern of every class, out of 40.
const PATTERNS: [(usize, usize); 14] = [
    (1, 1),
    (7, 1),
    (8, 1),
    (8, 1),
    (14, 1),
    (15, 1),
    (15, 1),
    (16, 1),
    (63, 1),
    (64, 1),
    (65, 1),
    (2048, 1),
    (128, 400),
    (1, 40),
];

// A length that the method does not take stays once in eight draws; else it is cut below 64 and grows by the shortest one
// that the method takes.
pub(crate) fn pattern_length(x: usize, method: Method) -> usize {
    let m = choose(&PATTERNS, draw(x, 0, 40), x, 1);
    if naive::takes(method, m) || draw(x, 2, 8) == 0 {
        m
    } else {
        naive::shortest(method).wrapping_add(m % 64)
    }
}

// Once in four draws a pattern with wild bits is up to 149 bits longer, if the method takes it: tables that are made in
// turns of many indices are then made in several.
fn longer(m: usize, wild: bool, x: usize, method: Method) -> usize {
    let more = m.wrapping_add(draw(x, 27, 150));
    if wild && draw(x, 28, 4) == 0 && naive::takes(method, more) {
        more
    } else {
        m
    }
}

// Lengths of the text of every class, each with 1 added; the class is drawn out of 32. The first two have whole bytes or a
// bit more; the next two are any length and 0; the others are about the pattern's length or longer.
const TEXTS: [(usize, usize); 10] = [
    (1, 256),
    (2, 256),
    (1, 2000),
    (1, 1),
    (0, 1),
    (1, 1),
    (1, 17),
    (61, 10),
    (1, 1500),
    (1, 200),
];

fn text_length(texts: &[(usize, usize)], x: usize, m: usize) -> usize {
    let class = draw(x, 3, 32);
    let more = choose(texts, class, x, 4);
    match class {
        0 | 1 => (more / 8 * 8).wrapping_add(class),
        2 | 3 => more.saturating_sub(1),
        _ => m.wrapping_add(more).saturating_sub(1),
    }
}

// A period from 1 to 24, once in three draws.
const PERIODS: [(usize, usize); 2] = [(1, 24), (0, 1)];

fn period(x: usize, i: usize) -> usize {
    choose(&PERIODS, draw(x, i, 3), x, i.wrapping_add(1))
}

// k bits from `at` on repeat from the period on; none do where it is 0.
pub(crate) fn repeat(s: &mut [u8], at: usize, k: usize, period: usize) {
    if 0 < period {
        packed::copy(s, at, at.wrapping_add(period), k.saturating_sub(period));
    }
}

// The text in a buffer of drawn bits stays random or becomes repetitive.
pub(crate) fn draw_text(s: &mut [u8], n: usize, x: usize) {
    repeat(s, TEXT_BIT, n, period(x, 5));
    // in two of three draws up to 79 bits somewhere in the text are one bit or two bits again and again
    let from = draw(x, 18, n).wrapping_add(TEXT_BIT);
    repeat(s, from, draw(x, 19, 80), draw(x, 20, 3));
}

// So does the pattern, which is often a part of the text.
pub(crate) fn draw_pattern(s: &mut [u8], n: usize, m: usize, x: usize) {
    if draw(x, 7, 4) == 0 {
        repeat(s, 0, m, period(x, 8));
    } else {
        let from = draw(x, 10, naive::places(n, m)).wrapping_add(TEXT_BIT);
        packed::copy(s, from, 0, m);
    }
}

fn draw_bits(s: &mut [u8], n: usize, m: usize, x: usize) {
    draw_text(s, n, x);
    draw_pattern(s, n, m, x);
}

// Once in four draws a bit of the pattern becomes another bit, so that it may almost occur. Then its second run is made.
pub(crate) fn draw_runs(wild: bool, s: &mut [u8], m: usize, x: usize) {
    if draw(x, 17, 4) == 3 {
        packed::copy(s, draw(x, 15, 2048), draw(x, 16, m), 1);
    }
    second_run(wild, s, m, x);
}

// The whole search over a drawn text and pattern, with a cell for each place or up to two more. Text, pattern and
// second run have just the bytes that they need or up to two more, and the scratch up to six cells more.
fn drawn_call(
    method: Method,
    texts: &[(usize, usize)],
    wild: bool,
    x: usize,
    s: &mut [u8],
) -> Call {
    let m = longer(pattern_length(x, method), wild, x, method);
    let n = text_length(texts, x, m);
    draw_bits(s, n, m, x);
    draw_runs(wild, s, m, x);
    Call {
        n,
        text: ceiling(n).wrapping_add(draw(x, 11, 3)),
        m,
        pattern: ceiling(m).wrapping_add(draw(x, 12, 3)),
        fixed: ceiling(m).wrapping_add(draw(x, 22, 3)),
        method,
        mark: 0,
        budget: ALL,
        room: naive::places(n, m).wrapping_add(draw(x, 13, 3)),
        scratch: naive::figure(method, m).wrapping_add(draw(x, 14, 7)),
    }
}

pub(crate) fn whole(
    method: Method,
    wild: bool,
    x: usize,
    s: &mut [u8; BYTES],
    list: &mut [u32; CELLS],
) -> bool {
    let c = drawn_call(method, &TEXTS, wild, x, s);
    single(c, x, s, list).good
}

// A list of calls has no text of the last class, so that it goes far.
pub(crate) fn twelve_calls(
    wild: bool,
    x: usize,
    s: &mut [u8; BYTES],
    list: &mut [u32; CELLS],
) -> bool {
    let c = drawn_call(Method::Plain, &TEXTS[..9], wild, x, s);
    joined(c, wild, x, s, list)
}

// The edges: bits of the text, bits of the pattern, bytes of the pattern and of its second run, and the mark, on top of
// the number of places less 1.
const TEXT_BITS: [usize; 5] = [8, 9, 16, 1073741824, 1073741825];

const PATTERN_BITS: [usize; 12] = [0, 1, 7, 8, 9, 14, 15, 16, 64, 65, 2048, 2049];

const PATTERN_BYTES: [usize; 5] = [0, 1, 2, 256, 257];

const MARKS: [usize; 4] = [0, 1, 2, 3221225471];

// How many rows there are.
pub(crate) const ROWS: usize = 48000;

// Each refusal at its edges, with the neighbours that are accepted, alone and together: the row's number tells which,
// and a draw the bytes of a second run with wild bits. There are enough of them where no bit is wild.
fn row(wild: bool, i: usize, x: usize, s: &mut [u8]) -> Call {
    let n = TEXT_BITS[i % 5];
    let m = PATTERN_BITS[i / 5 % 12];
    let method = METHODS[i / 1200 % METHODS.len()];
    second_run(wild, s, m, x);
    let bytes = if wild { draw(x, 22, 5) } else { 4 };
    let past = naive::places(n, m).wrapping_add(MARKS[i / 6000 % 4]);
    Call {
        n,
        text: i / 60 % 4,
        m,
        pattern: PATTERN_BYTES[i / 240 % 5],
        fixed: PATTERN_BYTES[bytes],
        method,
        mark: past.saturating_sub(1),
        budget: ALL,
        room: 20,
        scratch: naive::figure(method, m).saturating_sub(i / 24000 % 2),
    }
}

pub(crate) fn refusals(
    wild: bool,
    i: usize,
    x: usize,
    s: &mut [u8; BYTES],
    list: &mut [u32; CELLS],
) -> bool {
    let c = row(wild, i, x, s);
    single(c, x, s, list).good
}

// Each method with each length of the pattern from 0 to 2,050, on a text of up to 149 bits more, with a scratch that is
// just enough or one cell less: the case's number tells which. With wild bits the text is of up to 29 bits more, and it
// is the second run that has just enough bytes or one less.
pub(crate) const LENGTHS: usize = 20510;

fn length(wild: bool, i: usize, x: usize, s: &mut [u8]) -> Call {
    let method = METHODS[i % METHODS.len()];
    let m = i / 10 % 2051;
    let less = i / 5 % 2;
    let (longer, fewer_bytes, fewer_cells) = if wild { (30, less, 0) } else { (150, 0, less) };
    let n = m.wrapping_add(draw(x, 4, longer));
    draw_bits(s, n, m, x);
    second_run(wild, s, m, x);
    Call {
        n,
        text: ceiling(n),
        m,
        pattern: ceiling(m),
        fixed: ceiling(m).saturating_sub(fewer_bytes),
        method,
        mark: 0,
        budget: ALL,
        room: naive::places(n, m),
        scratch: naive::figure(method, m).saturating_sub(fewer_cells),
    }
}

pub(crate) fn every_length(
    wild: bool,
    i: usize,
    x: usize,
    s: &mut [u8; BYTES],
    list: &mut [u32; CELLS],
) -> bool {
    let c = length(wild, i, x, s);
    single(c, x, s, list).good && cells_told(c)
}

// The whole search of a pattern with wild bits, and again after every bit of both runs that does not matter has become
// the other one.
pub(crate) fn free_bits(i: usize, x: usize, s: &mut [u8; BYTES], list: &mut [u32; CELLS]) -> bool {
    let c = drawn_call(METHODS[i % METHODS.len()], &TEXTS, true, x, s);
    let call = single(c, x, s, list);
    change_free(s, c.m, TEXT_BIT, usize::MAX);
    let again = single(c, x, s, list);
    call.good && again.good && call.answer == again.answer
}
