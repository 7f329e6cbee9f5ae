// A naive search for a set, bit by bit, and its refusals: document 02's words on a set. The patterns lie one after the other
// from SET on, each beginning on the byte after the one before, and their second runs alike from SET_FIXED on.
use crate::naive::places;
use crate::run::{Run, Stop};
use crate::set_call::{SET_BIT, SET_FIXED_BIT, SetCall};
use draws::cells::get;
use draws::judged::{Judged, Refused};
use draws::number::{Low, ceiling};
use draws::packed::{TEXT_BIT, bit};

// The patterns of a place: how many stand there, and whether the list holds their pairs.
#[derive(Clone, Copy)]
struct Found {
    count: usize,
    good: bool,
}

// E, the largest E of any pattern.
pub(crate) fn end(c: SetCall<'_>) -> usize {
    let n = c.n;
    c.counts
        .iter()
        .fold(0, |most, &m| places(n, m as usize).max(most))
}

// Refusals 3, 4 and 17, the patterns taken in turn.
fn check_patterns(c: SetCall<'_>) -> Result<(), Refused> {
    let mut end: usize = 0;
    for &m in c.counts {
        end = end.wrapping_add(ceiling(m as usize));
        if m == 0 || 2048 < m {
            return Err(Refused(3));
        }
        if c.patterns < end {
            return Err(Refused(4));
        }
        if c.fixed < end {
            return Err(Refused(17));
        }
    }
    Ok(())
}

// The first refusal whose condition holds.
fn check(c: SetCall<'_>) -> Result<(), Refused> {
    if 1073741824 < c.n {
        return Err(Refused(1));
    }
    if c.text < ceiling(c.n) {
        return Err(Refused(2));
    }
    if c.counts.is_empty() || 64 < c.counts.len() {
        return Err(Refused(18));
    }
    check_patterns(c)?;
    if end(c) < c.mark {
        return Err(Refused(6));
    }
    Ok(())
}

// Whether the pattern of m bits from bit `start` of its run on stands at a place of n bits of text: it fits, and each of its
// bits is wild or equals the text's.
fn stands(s: &[u8], n: usize, start: usize, m: usize, at: usize) -> bool {
    let p = at.wrapping_add(TEXT_BIT);
    let w = start.wrapping_add(SET_BIT);
    let f = start.wrapping_add(SET_FIXED_BIT);
    at.wrapping_add(m) <= n
        && (0..m).all(|j| bit(s, f.wrapping_add(j)) == 0
            || bit(s, w.wrapping_add(j)) == bit(s, p.wrapping_add(j)))
}

// Whether pair k of the list is this place and this number.
pub(crate) fn paired(list: &[u32], k: usize, at: u32, i: u32) -> bool {
    let cell = k.wrapping_mul(2);
    get(list, cell) == at && get(list, cell.wrapping_add(1)) == i
}

// The patterns that stand at a place, in turn, and whether the list holds their pairs after `had` others.
fn find(c: SetCall<'_>, s: &[u8], list: &[u32], had: usize, at: usize) -> Found {
    let mut count: usize = 0;
    let mut good = true;
    let mut start: usize = 0;
    for (i, &m) in c.counts.iter().enumerate() {
        if stands(s, c.n, start, m as usize, at) {
            let k = had.wrapping_add(count);
            good = good && paired(list, k, u32::low(at), u32::low(i));
            count = count.wrapping_add(1);
        }
        start = start.wrapping_add(ceiling(m as usize).wrapping_mul(8));
    }
    Found { count, good }
}

// What a call is to come to, and whether the list holds what is to be written. The pairs of a place are written if all of
// them fit; else none is, and the step is not counted.
pub(crate) fn search(c: SetCall<'_>, s: &[u8], list: &[u32]) -> Judged<Run> {
    if let Err(why) = check(c) {
        return Judged {
            good: true,
            answer: Err(why),
        };
    }
    let mut good = true;
    let mut run = Run {
        steps: 0,
        hits: 0,
        mark: c.mark,
        stop: Stop::Done,
    };
    for at in c.mark..end(c) {
        if run.steps == c.budget {
            run.stop = Stop::Spent;
            break;
        }
        let found = find(c, s, list, run.hits, at);
        let hits = run.hits.wrapping_add(found.count);
        if c.room < hits.wrapping_mul(2) {
            run.stop = Stop::Full(at);
            break;
        }
        run.steps = run.steps.wrapping_add(1);
        run.hits = hits;
        run.mark = at + 1;
        good = good && found.good;
    }
    Judged {
        good,
        answer: Ok(run),
    }
}
