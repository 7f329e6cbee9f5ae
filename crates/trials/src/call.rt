// One call of the search beside the naive one.
use crate::naive;
use crate::run::{Run, hits, stopped};
use bits::Place;
use draws::cells;
use draws::cells::{part, stay};
use draws::judged::{Judged, Refused};
use draws::number::Low;
use draws::packed::{FIXED, TEXT};
use search::{Answer, Mark, Method, Refusal};

// Every step that there is.
pub(crate) const ALL: usize = 4294967295;

// The cells of scratch that there are. A call is lent a run of them, as many as its method takes, or some more, or too few.
pub(crate) const SCRATCH: usize = 4233;

// So many cells lie before that run, and are lent to no call.
pub(crate) const GUARD: usize = 5;

pub(crate) const METHODS: [Method; 5] = [
    Method::Plain,
    Method::Hash,
    Method::Skip,
    Method::Wide,
    Method::Tail,
];

// What a call is given: n bits of text in `text` bytes, m bits of pattern in `pattern` bytes and of its second run in
// `fixed` bytes, the method, mark and budget, and how many cells of the list and of the scratch are lent.
#[derive(Clone, Copy)]
pub(crate) struct Call {
    pub n: usize,
    pub text: usize,
    pub m: usize,
    pub pattern: usize,
    pub fixed: usize,
    pub method: Method,
    pub mark: usize,
    pub budget: usize,
    pub room: usize,
    pub scratch: usize,
}

// The search's answer.
fn answered(outcome: Result<Answer, Refusal>) -> Result<Run, Refused> {
    match outcome {
        Ok(a) => Ok(Run {
            steps: a.steps as usize,
            hits: a.occurrences as usize,
            mark: a.mark.at.0 as usize,
            stop: stopped(a.stop),
        }),
        Err(why) => Err(Refused(why.number())),
    }
}

// The search's call.
fn made(
    c: Call,
    s: &[u8],
    list: &mut [u32],
    scratch: &mut [u64; SCRATCH],
) -> Result<Answer, Refusal> {
    let room = c.room.min(list.len());
    let end = c.scratch.min(SCRATCH - GUARD) + GUARD;
    let mark = Mark {
        at: Place(u32::low(c.mark)),
    };
    mark.search(
        part(s, TEXT, c.text),
        c.n as u64,
        part(s, 0, c.pattern),
        part(s, FIXED, c.fixed),
        c.m as u64,
        c.method,
        u32::low(c.budget),
        &mut list[..room],
        &mut scratch[GUARD..end],
    )
}

// What the call is to come to, and whether it did. The cells of the list that are not written stay; so do those of
// the scratch before the run that is lent, and those from the method's figure on, and all of it where the call is refused.
fn judge(
    c: Call,
    x: usize,
    answer: Result<Run, Refused>,
    s: &[u8],
    list: &[u32],
    scratch: &[u64],
) -> Judged<Run> {
    let want = naive::search(c, s, list);
    let used = match want.answer {
        Ok(_) => naive::figure(c.method, c.m),
        Err(_) => 0,
    };
    let good = want.good
        && answer == want.answer
        && stay(list, hits(want), x)
        && stay(part(scratch, 0, GUARD), 0, x)
        && stay(scratch, used.wrapping_add(GUARD), x);
    Judged { good, ..want }
}

// The call of both, on a list of known content. The scratch has one too, but for the cells that the call may use.
pub(crate) fn judged(
    c: Call,
    x: usize,
    s: &[u8],
    list: &mut [u32],
    scratch: &mut [u64; SCRATCH],
) -> Judged<Run> {
    cells::fill(list, 0, x);
    let answer = answered(made(c, s, list, scratch));
    judge(c, x, answer, s, list, scratch)
}

// A single call.
pub(crate) fn single(c: Call, x: usize, s: &[u8], list: &mut [u32]) -> Judged<Run> {
    let mut scratch = [0u64; SCRATCH];
    cells::fill(&mut scratch, 0, x);
    judged(c, x, s, list, &mut scratch)
}
