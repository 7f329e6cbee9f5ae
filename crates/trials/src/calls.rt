// Lists of calls from mark to mark, refused ones too, and the one claim about the whole list (demand 3).
use crate::call::{ALL, Call, GUARD, METHODS, SCRATCH, judged};
use crate::naive;
use crate::run::{Run, Stop, Total};
use draws::cells;
use draws::draw::{choose, draw};
use draws::judged::Judged;
use draws::number::ceiling;
use search::Method;

// Budgets of every class, out of 12: none, every step, some, and very few, so that a list of calls goes far.
const BUDGETS: [(usize, usize); 5] = [(0, 1), (ALL, 1), (0, 60), (0, 60), (1, 3)];

// Cells of the list of every class, out of 8: none, one, more than there are places, and a few.
const ROOMS: [(usize, usize); 4] = [(0, 1), (1, 1), (2050, 20), (0, 20)];

// The method of a call on a pattern of m bits. One that does not take the pattern stays, and is refused, once in four draws;
// else the call is a plain or a wide one.
fn drawn_method(m: usize, x: usize, d: usize) -> Method {
    let method = METHODS[draw(x, d, METHODS.len())];
    if naive::takes(method, m) || draw(x, d.wrapping_add(1), 4) == 0 {
        return method;
    }
    if draw(x, d.wrapping_add(2), 2) == 0 {
        Method::Plain
    } else {
        Method::Wide
    }
}

// Cells of the scratch, of which the method takes k, of every class, out of 16: too few, one too few, just enough, and enough.
fn drawn_scratch(k: usize, x: usize, d: usize) -> usize {
    match draw(x, d, 16) {
        0 => draw(x, d.wrapping_add(1), k),
        1 => k.saturating_sub(1),
        2 => k,
        _ => k.wrapping_add(draw(x, d.wrapping_add(1), 7)),
    }
}

// Bytes of the second run, of which the pattern takes k: enough, or one too few once in 16 calls of a pattern with wild
// bits.
fn drawn_fixed(k: usize, wild: bool, x: usize, d: usize) -> usize {
    let more = draw(x, d, 16);
    if wild && more == 0 {
        k.saturating_sub(1)
    } else {
        k.wrapping_add(more % 3)
    }
}

// The next call of a list, of which so many are left, has a method, a budget, cells, a scratch and bytes of the second
// run of its own, each from a draw of its own: a call has 16 of them.
fn next_call(c: Call, mark: usize, wild: bool, x: usize, left: usize) -> Call {
    let d = left % 16 * 16 + 16;
    let method = drawn_method(c.m, x, d);
    Call {
        method,
        mark,
        budget: choose(&BUDGETS, draw(x, d + 3, 12), x, d + 4),
        room: choose(&ROOMS, draw(x, d + 5, 8), x, d + 6),
        scratch: drawn_scratch(naive::figure(method, c.m), x, d + 7),
        fixed: drawn_fixed(ceiling(c.m), wild, x, d + 9),
        ..c
    }
}

// Whether a call makes no more steps than its budget, made them all where it said spent, and had some left where it said
// full.
fn within_budget(c: Call, call: Judged<Run>) -> bool {
    match call.answer {
        Ok(run) => match run.stop {
            Stop::Done => run.steps <= c.budget,
            Stop::Full(_) => run.steps < c.budget,
            Stop::Spent => run.steps == c.budget,
        },
        Err(_) => true,
    }
}

// The claim about the whole list, whose first mark is 0: its cells hold every occurrence before the last mark, rising, and
// as many were written; the last accepted call said done just if the pattern no longer fits from the last mark on; and the
// steps are at most the last mark.
fn claimed(first: Call, t: Total, s: &[u8], list: &[u32]) -> bool {
    let whole = Call {
        method: Method::Plain,
        budget: t.mark,
        room: t.hits,
        scratch: SCRATCH,
        ..first
    };
    let over = first.n < t.mark.wrapping_add(first.m);
    t.is_as(naive::search(whole, s, list), over) && t.steps <= t.mark
}

// A call that is to be refused finds a scratch of known content in all cells; another one finds, in those that it may use,
// what the calls before it left.
fn refill(c: Call, x: usize, scratch: &mut [u64; SCRATCH]) {
    let used = match naive::check(c) {
        Ok(()) => naive::figure(c.method, c.m),
        Err(_) => 0,
    };
    cells::fill(scratch, used.wrapping_add(GUARD), x);
}

// Twelve calls from mark to mark, with one scratch; `wild` says whether the pattern has wild bits. Each is lent the cells
// after what the calls before it wrote, so that the list holds all of it, joined.
pub(crate) fn joined(first: Call, wild: bool, x: usize, s: &[u8], list: &mut [u32]) -> bool {
    let mut scratch = [0u64; SCRATCH];
    cells::fill(&mut scratch, 0, x);
    let mut t = Total::new();
    for made in 0..12 {
        let c = next_call(first, t.mark, wild, x, 12 - made);
        refill(c, x, &mut scratch);
        let start = t.hits.min(list.len());
        let call = judged(c, x, s, &mut list[start..], &mut scratch);
        t = t.with(call);
        t.good = t.good && within_budget(c, call);
    }
    claimed(first, t, s, list)
}
