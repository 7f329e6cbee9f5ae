// A naive search, bit by bit, and the table of refusals: the written rules of documents 01 and 02. The pattern lies at
// the front of a buffer, the text from TEXT on, and the pattern's second run from FIXED on.
use crate::call::Call;
use crate::run::{Run, Stop};
use draws::cells::get;
use draws::judged::{Judged, Refused};
use draws::number::{Low, ceiling};
use draws::packed::{FIXED_BIT, TEXT_BIT, bit};
use search::Method;

// The number of places.
pub(crate) fn places(n: usize, m: usize) -> usize {
    if m <= n { (n - m).wrapping_add(1) } else { 0 }
}

// The shortest pattern that a method takes.
pub(crate) fn shortest(method: Method) -> usize {
    match method {
        Method::Plain | Method::Wide | Method::Tail => 1,
        Method::Hash => 8,
        Method::Skip => 15,
    }
}

// The longest one.
fn longest(method: Method) -> usize {
    match method {
        Method::Plain | Method::Hash | Method::Skip | Method::Wide => 2048,
        Method::Tail => 64,
    }
}

// Whether the method takes a pattern of m bits.
pub(crate) fn takes(method: Method, m: usize) -> bool {
    shortest(method) <= m && m <= longest(method)
}

// How many cells of scratch a method takes for a pattern of m bits: a byte of a row to a cell, eight rows and their
// masks; two entries for each value of a byte; one for each and a link for each index; two words for each bit of a
// window of 64 places; two words.
pub(crate) fn figure(method: Method, m: usize) -> usize {
    match method {
        Method::Plain => ceiling(m.wrapping_add(7)).wrapping_mul(16),
        Method::Hash => 512,
        Method::Skip => m.wrapping_add(256),
        Method::Wide => m.wrapping_add(63).wrapping_mul(2),
        Method::Tail => 2,
    }
}

// The first row of the table of refusals whose condition holds.
pub(crate) fn check(c: Call) -> Result<(), Refused> {
    if 1073741824 < c.n {
        return Err(Refused(1));
    }
    if c.text < ceiling(c.n) {
        return Err(Refused(2));
    }
    if c.m == 0 || 2048 < c.m {
        return Err(Refused(3));
    }
    if c.pattern < ceiling(c.m) {
        return Err(Refused(4));
    }
    if c.fixed < ceiling(c.m) {
        return Err(Refused(17));
    }
    if !takes(c.method, c.m) {
        return Err(Refused(5));
    }
    if places(c.n, c.m) < c.mark {
        return Err(Refused(6));
    }
    if c.scratch < figure(c.method, c.m) {
        return Err(Refused(7));
    }
    Ok(())
}

// Whether the bit b agrees with bit j of the pattern: it equals that bit, or that bit is wild.
fn agrees(s: &[u8], j: usize, b: u8) -> bool {
    bit(s, j) == b || bit(s, j.wrapping_add(FIXED_BIT)) == 0
}

// Whether k bits from p on agree with those of the pattern from j on.
fn shows(s: &[u8], j: usize, p: usize, k: usize) -> bool {
    (0..k).all(|o| agrees(s, j.wrapping_add(o), bit(s, p.wrapping_add(o))))
}

// Whether the pattern, moved by d, shows the eight bits from p on. The first of these bits may lie before the pattern.
fn shows_moved(s: &[u8], m: usize, p: usize, d: usize) -> bool {
    let end = d.wrapping_add(8);
    let before = end.saturating_sub(m);
    shows(
        s,
        m.saturating_sub(end),
        p.wrapping_add(before),
        8usize.saturating_sub(before),
    )
}

// The least d from `first` to m that meets H's condition.
pub(crate) fn least(s: &[u8], m: usize, p: usize, first: usize) -> usize {
    (first..m).find(|&d| shows_moved(s, m, p, d)).unwrap_or(m)
}

// One more than the greatest index of the pattern whose bit is wild or equals b, or 0.
fn last_index(s: &[u8], m: usize, b: u8) -> usize {
    (0..m)
        .rev()
        .find(|&j| agrees(s, j, b))
        .map_or(0, |j| j.wrapping_add(1))
}

fn next_hash(s: &[u8], m: usize, at: usize) -> usize {
    let p = at.wrapping_add(m).wrapping_add(TEXT_BIT).saturating_sub(8);
    match least(s, m, p, 0) {
        0 => at.wrapping_add(least(s, m, p, 1)),
        d => at.wrapping_add(d),
    }
}

fn next_wide(s: &[u8], n: usize, m: usize, at: usize) -> usize {
    // s + ws
    let after = at.wrapping_add(m).wrapping_add(63);
    if n <= after {
        return n;
    }
    // s + ws − k, or s + ws + 1
    let last = last_index(s, m, bit(s, after.wrapping_add(TEXT_BIT)));
    after.wrapping_add(1).saturating_sub(last)
}

// The greatest length r below m such that the window's last r bits, those before `end`, agree with the pattern's first r
// bits. Length 0 always is one.
fn prefix_length(s: &[u8], m: usize, end: usize) -> usize {
    (1..m)
        .rev()
        .find(|&r| shows(s, 0, end.saturating_sub(r), r))
        .unwrap_or(0)
}

fn next_tail(s: &[u8], m: usize, at: usize) -> usize {
    // s + m − r
    let after = at.wrapping_add(m);
    after.saturating_sub(prefix_length(s, m, after.wrapping_add(TEXT_BIT)))
}

// The method's next mark, not cut down to the number of places.
fn next_mark(c: Call, s: &[u8], at: usize) -> usize {
    match c.method {
        Method::Plain => at.wrapping_add(1),
        Method::Hash => next_hash(s, c.m, at),
        Method::Skip => (at.wrapping_add(c.m) / 8 * 8)
            .saturating_sub(8)
            .wrapping_add(1),
        Method::Wide => next_wide(s, c.n, c.m, at),
        Method::Tail => next_tail(s, c.m, at),
    }
}

// What a call is to come to, and whether the list holds what is to be written: every occurrence from the mark on to the
// new mark, by the definition. A step begins where the last one ends. One that a full list cuts is not counted.
pub(crate) fn search(c: Call, s: &[u8], list: &[u32]) -> Judged<Run> {
    if let Err(why) = check(c) {
        return Judged {
            good: true,
            answer: Err(why),
        };
    }
    let mut good = true;
    let mut run = Run {
        steps: 0,
        hits: 0,
        mark: c.mark,
        stop: Stop::Done,
    };
    let mut next = c.mark;
    for at in c.mark..places(c.n, c.m) {
        if at == next {
            if run.steps == c.budget {
                run.stop = Stop::Spent;
                break;
            }
            run.steps = run.steps.wrapping_add(1);
            next = next_mark(c, s, at);
        }
        if shows(s, 0, at.wrapping_add(TEXT_BIT), c.m) {
            if run.hits == c.room {
                run.stop = Stop::Full(at);
                run.steps = run.steps.saturating_sub(1);
                break;
            }
            good = good && get(list, run.hits) == u32::low(at);
            run.hits = run.hits.wrapping_add(1);
        }
        run.mark = at + 1;
    }
    Judged {
        good,
        answer: Ok(run),
    }
}
