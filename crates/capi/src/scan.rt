// The search call, and by themselves H(B) and the cells of scratch that a search takes.
ghost use Rattle.std.specs.Prelude.{◌≡◌, ◌≤◌, length};
ghost use Rattle.search.specs.Verdict.{ending_of};
ghost use Rattle.capi.specs.Told.{Tells};
ghost use Rattle.capi.specs.Scan.{method_named, stop_number, Searches, hash_told, cells_told};
ghost use Rattle.capi.specs.Inner.{named_by, outcome_tells};

use crate::{ANSWER_CELLS_MISSING, UNKNOWN_METHOD, cells};
use bits::Place;
use search::{Answer, Mark, Method, Refusal, Stop, hash_value, scratch_cells};

// The method that a number names.
fn method_of(k: u32) -> Option<Method>
    ensures { named_by result ≡ method_named k }
{
    match k {
        0 => Some(Method::Plain),
        1 => Some(Method::Hash),
        2 => Some(Method::Skip),
        3 => Some(Method::Wide),
        4 => Some(Method::Tail),
        _ => None,
    }
}

pub(crate) fn stop_of(stop: Stop) -> u64
    ensures { result ≡ stop_number (ending_of stop) }
{
    match stop {
        Stop::Done => 0,
        Stop::Full(_) => 1,
        Stop::Spent => 2,
    }
}

// The number of an outcome; an accepted one's steps, occurrences, mark and stop go to the first four cells.
fn tell(outcome: Result<Answer, Refusal>, answer: &mut [u64]) -> u32
    requires { 4 ≤ length answer.old }
    ensures { Tells (outcome_tells outcome) answer.old result answer.new }
{
    match outcome {
        Err(why) => why.number(),
        Ok(a) => cells::four(
            answer,
            u64::from(a.steps),
            u64::from(a.occurrences),
            u64::from(a.mark.at.0),
            stop_of(a.stop),
        ),
    }
}

// Lists the places from the mark on where the pattern of m bits stands in the first n bits of the text. A 0 in the second
// run, `fixed`, makes a bit of the pattern wild.
#[unsafe(no_mangle)]
pub extern "C" fn mitongory_search(
    text: &[u8],
    n: u64,
    pattern: &[u8],
    fixed: &[u8],
    m: u64,
    method: u32,
    mark: u32,
    budget: u32,
    list: &mut [u32],
    scratch: &mut [u64],
    answer: &mut [u64],
) -> u32
    ensures { Searches (record { text = text.entry.now; n = n; pattern = pattern.now; fixed = fixed.now; m = m; method = method; mark = mark; budget = budget; list = list.old; scratch = scratch.old; answer = answer.old }) result list.new scratch.new answer.new }
{
    let Some(known) = method_of(method) else {
        return UNKNOWN_METHOD;
    };
    if answer.len() < 4 {
        return ANSWER_CELLS_MISSING;
    }
    let from = Mark { at: Place(mark) };
    tell(
        from.search(text, n, pattern, fixed, m, known, budget, list, scratch),
        answer,
    )
}

// H(B) of the first m bits of the pattern.
#[unsafe(no_mangle)]
pub extern "C" fn mitongory_hash_value(
    pattern: &[u8],
    fixed: &[u8],
    m: u64,
    value: u8,
    answer: &mut [u64],
) -> u32
    ensures { Tells (hash_told pattern.now fixed.now m value answer.old) answer.old result answer.new }
{
    if answer.len() < 1 {
        return ANSWER_CELLS_MISSING;
    }
    match hash_value::hash_value(pattern, fixed, m, value) {
        Err(why) => why.number(),
        Ok(d) => cells::one(answer, u64::from(d)),
    }
}

// How many cells of scratch a search by the method takes for a pattern of m bits.
#[unsafe(no_mangle)]
pub extern "C" fn mitongory_scratch_cells(method: u32, m: u64, answer: &mut [u64]) -> u32
    ensures { Tells (cells_told method m answer.old) answer.old result answer.new }
{
    let Some(known) = method_of(method) else {
        return UNKNOWN_METHOD;
    };
    if answer.len() < 1 {
        return ANSWER_CELLS_MISSING;
    }
    match scratch_cells::scratch_cells(known, m) {
        Err(why) => why.number(),
        Ok(count) => cells::one(answer, count),
    }
}
