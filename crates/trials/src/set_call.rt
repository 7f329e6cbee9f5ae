// One call for a set beside the naive one.
use crate::naive_set;
use crate::run::{Run, hits, stopped};
use bits::Place;
use draws::cells;
use draws::cells::{part, stay};
use draws::judged::{Judged, Refused};
use draws::number::Low;
use draws::packed::TEXT;
use search::Mark;
use set::{Answer, Refusal};

// Where the set's patterns begin, in bytes and in bits, after a buffer with a text and one pattern; then come their second
// runs, and then the end. There is room for 65 patterns of 2,048 bits, and some bytes.
pub(crate) const SET: usize = 1073;

pub(crate) const SET_BIT: usize = 8584;

pub(crate) const SET_FIXED: usize = 17733;

pub(crate) const SET_FIXED_BIT: usize = 141864;

pub(crate) const SET_BYTES: usize = 34393;

// The bit counts that there are: one more than a set may have.
pub(crate) const COUNTS: usize = 65;

// The cells of the list.
pub(crate) const CELLS: usize = 4400;

// What a call is given: n bits of text in `text` bytes, a pattern for each bit count in `patterns` bytes and their second
// runs in `fixed` bytes, mark and budget, and how many cells of the list are lent.
#[derive(Clone, Copy)]
pub(crate) struct SetCall<'a> {
    pub n: usize,
    pub text: usize,
    pub counts: &'a [u64],
    pub patterns: usize,
    pub fixed: usize,
    pub mark: usize,
    pub budget: usize,
    pub room: usize,
}

// The library's answer.
fn answered(outcome: Result<Answer, Refusal>) -> Result<Run, Refused> {
    match outcome {
        Ok(a) => Ok(Run {
            steps: a.steps as usize,
            hits: a.occurrences as usize,
            mark: a.mark.at.0 as usize,
            stop: stopped(a.stop),
        }),
        Err(why) => Err(Refused(why.number())),
    }
}

// The library's call.
fn made(c: SetCall<'_>, s: &[u8], list: &mut [u32]) -> Result<Answer, Refusal> {
    let room = c.room.min(list.len());
    set::search_set(
        Mark {
            at: Place(u32::low(c.mark)),
        },
        part(s, TEXT, c.text),
        c.n as u64,
        part(s, SET, c.patterns),
        part(s, SET_FIXED, c.fixed),
        c.counts,
        u32::low(c.budget),
        &mut list[..room],
    )
}

// The call of both, on a list of known content, and whether the library's did what it is to do. Cells of the list that are
// not written stay; a pair takes two.
pub(crate) fn judged(c: SetCall<'_>, x: usize, s: &[u8], list: &mut [u32]) -> Judged<Run> {
    cells::fill(list, 0, x);
    let answer = answered(made(c, s, list));
    let want = naive_set::search(c, s, list);
    let good = want.good && answer == want.answer && stay(list, hits(want).wrapping_mul(2), x);
    Judged { good, ..want }
}
