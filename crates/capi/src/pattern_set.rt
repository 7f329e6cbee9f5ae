// The search for a set of patterns.
ghost use Rattle.capi.specs.PatternSet.{SetSearched};

use crate::{ANSWER_CELLS_MISSING, cells, scan};
use bits::Place;
use search::Mark;

// Lists the hits from the mark on: pairs of a place and the number of a pattern that stands there in the first n bits of the
// text. Each pattern begins on the byte after the one before, in both runs.
#[unsafe(no_mangle)]
pub extern "C" fn mitongory_search_set(
    text: &[u8],
    n: u64,
    patterns: &[u8],
    fixed: &[u8],
    counts: &[u64],
    mark: u32,
    budget: u32,
    list: &mut [u32],
    answer: &mut [u64],
) -> u32
    ensures { SetSearched (record { text = text.entry.now; n = n; patterns = patterns.now; fixed = fixed.now; counts = counts.now; mark = mark; budget = budget; list = list.old; answer = answer.old }) result list.new answer.new }
{
    if answer.len() < 4 {
        return ANSWER_CELLS_MISSING;
    }
    let from = Mark { at: Place(mark) };
    match set::search_set(from, text, n, patterns, fixed, counts, budget, list) {
        Err(why) => why.number(),
        Ok(a) => cells::four(
            answer,
            u64::from(a.steps),
            a.occurrences,
            u64::from(a.mark.at.0),
            scan::stop_of(a.stop),
        ),
    }
}
