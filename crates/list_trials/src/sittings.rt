// Sittings: drawn keys and sheets against a naive marker. Key and sheets are picked from 16 rising positions, by a number
// with a bit for each.
use crate::marker::{Marks, Sitting};
use crate::{files, marker};
use draws::cells::{get, part, put, stay};
use draws::draw::{choose, draw};
use draws::judged::{Judged, Refused};
use draws::number::Low;
use draws::{cells, draw};
use marking::{MarkRefusal, Totals};

// The library's answer.
fn answered(answer: Result<Totals, MarkRefusal>) -> Result<Marks, Refused> {
    match answer {
        Ok(t) => Ok(Marks {
            right: t.right as usize,
            missed: t.missed as usize,
            false_positives: t.false_positives as usize,
        }),
        Err(why) => Err(Refused(why.number())),
    }
}

// A sitting is marked as the naive marker does. The cells of the report after those of the sheets stay, and a refusal leaves
// all of them.
pub(crate) fn marked(sitting: Sitting<'_>, x: usize, report: &mut [u32]) -> Judged<Marks> {
    cells::fill(report, 0, x);
    let k = sitting.room.min(report.len());
    let answer = answered(marking::mark_sitting(
        sitting.key,
        sitting.sheets,
        sitting.counts,
        &mut report[..k],
    ));
    let good = match marker::mark(sitting, report) {
        Ok(want) => {
            let written = sitting.counts.len().wrapping_mul(3);
            answer == Ok(want.totals) && want.reported && stay(report, written, x)
        }
        Err(why) => answer == Err(why) && stay(report, 0, x),
    };
    Judged { good, answer }
}

// Puts those of the 16 positions that are picked from `start` on; the answer is the index after them. The cell there may be
// written too.
pub(crate) fn put_picked(list: &mut [u32], start: usize, from: &[u32; 16], picked: usize) -> usize {
    let mut at = start;
    for (i, &p) in from.iter().enumerate() {
        put(list, at, p);
        at = at.wrapping_add((picked >> i) % 2);
    }
    at
}

// Adds to a count; at 2^64 it begins at 0 again.
pub(crate) fn add(counts: &mut [u64], i: usize, amount: u64) {
    put(counts, i, get(counts, i).wrapping_add(amount));
}

// Where the 16 positions begin: at 0, so that the last is about the limit, or anywhere.
const STARTS: [(usize, usize); 3] = [(0, 1), (1073741764, 45), (0, 1000000000)];

fn draw_positions(list: &mut [u32; 16], x: usize) {
    let mut p = choose(&STARTS, draw(x, 1, 8), x, 2);
    for (i, cell) in list.iter_mut().enumerate() {
        *cell = u32::low(p);
        p = p.wrapping_add(draw(x, i ^ 16, 4)).wrapping_add(1);
    }
}

const ALL: usize = 65535;

// What the key picks: nothing, all, or any positions.
fn draw_key(x: usize) -> usize {
    match draw(x, 3, 8) {
        0 => 0,
        1 => ALL,
        _ => draw(x, 4, ALL + 1),
    }
}

// What sheet i picks, out of so many classes of which the last are empty: the key's positions, nearly these, every second
// of them, none of them, all 16 or any.
fn draw_sheet(key: usize, classes: usize, x: usize, i: usize) -> usize {
    let any = draw(x, i ^ 512, ALL + 1);
    match draw(x, i ^ 1024, classes) {
        0 => key,
        1 => key ^ (any & draw(x, i ^ 2048, ALL + 1) & draw(x, i ^ 4096, ALL + 1)),
        2 => key & 21845,
        3 => key ^ ALL,
        4 => ALL,
        5 => any,
        _ => 0,
    }
}

// The cells for all sheets. A sheet that might not fit is empty. One cell more may be left over.
const CELLS: usize = 128;

fn fitting(picked: usize, at: usize) -> usize {
    if at <= CELLS - 16 { picked } else { 0 }
}

// A sheet for each count; the answer is how many cells they have.
fn draw_sheets(
    sheets: &mut [u32],
    counts: &mut [u64],
    from: &[u32; 16],
    key: usize,
    x: usize,
) -> usize {
    let classes = if counts.len() < 8 { 8 } else { 128 };
    let mut at = 0;
    for (i, count) in counts.iter_mut().enumerate() {
        let picked = fitting(draw_sheet(key, classes, x, i), at);
        let end = put_picked(sheets, at, from, picked);
        *count = end.saturating_sub(at) as u64;
        at = end;
    }
    at
}

// What is added to two counts: 1, or 1 less; two halves of 2^64, so that the sum wraps; a cell of one sheet goes to another
// (or, where it has none, the sum wraps); nearly 2^64; and, mostly, nothing.
const ADDED: [(u64, u64); 6] = [
    (1, 0),
    (18446744073709551615, 0),
    (9223372036854775808, 9223372036854775808),
    (18446744073709551615, 1),
    (18446744073709551613, 0),
    (0, 0),
];

fn spoil_counts(counts: &mut [u64], x: usize) {
    let (one, other) = ADDED[draw(x, 5, 30).min(5)];
    let count = counts.len();
    add(counts, draw(x, 6, count), one);
    add(counts, draw(x, 7, count), other);
}

// The cells of the report: any, fewer than the sheets need, more, or just those.
fn draw_room(count: usize, x: usize) -> usize {
    let need = count.wrapping_mul(3);
    match draw(x, 8, 12) {
        0 => draw(x, 9, need),
        1 => need.saturating_sub(draw(x, 9, 3) + 1),
        2 => need.wrapping_add(draw(x, 9, 6)),
        _ => need,
    }
}

// A drawn sitting of so many sheets, up to 257. Key, sheets and counts are spoiled now and then, and now and then a cell is
// left over.
pub(crate) fn drawn(count: usize, x: usize) -> bool {
    let mut from = [0u32; 16];
    let mut key = [0u32; 16];
    let mut sheets = [0u32; CELLS + 1];
    let mut counts = [0u64; 257];
    let mut report = [0u32; 780];
    let counts = &mut counts[..count.min(257)];
    draw_positions(&mut from, x);
    let picked = draw_key(x);
    let k = put_picked(&mut key, 0, &from, picked);
    let n = draw_sheets(&mut sheets, counts, &from, picked, x);
    files::spoil(&mut key, k, draw::next(x));
    files::spoil(&mut sheets, n, draw::next(draw::next(x)));
    spoil_counts(counts, x);
    let room = draw_room(count, x);
    let sitting = Sitting {
        key: part(&key, 0, k),
        sheets: part(&sheets, 0, n.wrapping_add(draw(x, 10, 24) / 23)),
        counts,
        room,
    };
    let end = room.wrapping_add(12).min(780);
    marked(sitting, x, &mut report[..end]).good
}
