// All steps of a call: the loop over the steps of a method.
ghost use Rattle.std.specs.Prelude.{◌^◌, ◌≤◌};
ghost use Rattle.rules.specs.Occurrence.{places};
ghost use Rattle.matcher.specs.Ready.{text_of};
ghost use Rattle.matcher.specs.Asked.{lent, text_in, pattern_in};
ghost use Rattle.search.specs.Parts.{come_to, RunGives, Allowed, Leaves, TellsOf};

use crate::{Answer, Mark, Method, Stop};
use bits::Place;
use hash::Hash;
use matcher::query::{Pattern, Query};
use matcher::search::Search;
use matcher::steps::{Full, Matcher, Reached};
use plain::Plain;
use skip::Skip;
use std::marker::PhantomData;
use tail::Tail;
use wide::Wide;

// Steps from the mark until the places, the budget or the cells of the list are at an end: one from the mark, wherever it
// is, and many after it. A step that a full list cuts is not counted. The tables are made.
pub fn run<M: Matcher>(
    mark: Mark,
    search: &Search<M>,
    budget: u32,
    list: &mut [u32],
) -> Result<Reached, Full>
    requires { mark.at.0 ≤ places (text_in search.now.query) (pattern_in search.now.query) }
    ensures { RunGives M.method (text_in search.now.query) (pattern_in search.now.query) mark.at.0 budget list.old result list.new }
{
    let end = search.query.n - search.query.pattern.m + 1;
    let mut at = mark.at.0;
    let mut steps = 0u32;
    let mut hits = 0usize;
    while at < end && steps < budget {
        let one = Mark { at: Place(at) }.step(search, &mut list[hits..]);
        let (moved, wrote) = match one {
            Ok(made) => made,
            Err(full) => return Err(full.after(steps, hits)),
        };
        steps += 1;
        hits += wrote;
        let many = M::advance(search, moved.at, budget - steps, &mut list[hits..]);
        let more = match many {
            Ok(more) => more,
            Err(cut) => return Err(cut.after(steps, hits)),
        };
        at = more.at.0;
        steps += more.steps;
        hits += more.hits;
    }
    Ok(Reached {
        at: Place(at),
        steps,
        hits,
    })
}

// The answer by what the steps left.
fn answer(left: Result<Reached, Full>, end: Place) -> Answer
    requires { (come_to left).hits ≤ 2 ^ 30 }
    ensures { TellsOf result left end.0 }
{
    let (there, stop) = match left {
        Err(Full(there)) => (there, Stop::Full(there.at)),
        Ok(there) if there.at == end => (there, Stop::Done),
        Ok(there) => (there, Stop::Spent),
    };
    Answer {
        steps: there.steps,
        occurrences: there.hits as u32,
        mark: Mark { at: there.at },
        stop,
    }
}

// A call that has passed the check, by the method M.
fn by<M: Matcher>(
    mark: Mark,
    text: &[u8],
    n: u32,
    pattern: Pattern,
    budget: u32,
    list: &mut [u32],
    scratch: &mut [u64],
) -> Answer
    requires { Allowed M.method (text_of text.now n) (lent pattern) mark.at.0 scratch.old }
    ensures { Leaves M.method (text_of text.now n) (lent pattern.entry) mark.at.0 budget list.old scratch.old result list.new scratch.new }
{
    if n < pattern.m {
        return Answer {
            steps: 0,
            occurrences: 0,
            mark,
            stop: Stop::Done,
        };
    }
    M::prepare(&pattern, scratch);
    let end = Place(n - pattern.m + 1);
    let search = Search::<M> {
        query: Query::new(text, n, pattern),
        cells: scratch,
        of: PhantomData,
    };
    answer(run(mark, &search, budget, list), end)
}

// The same by the method that is chosen.
pub fn accepted(
    mark: Mark,
    method: Method,
    text: &[u8],
    n: u32,
    pattern: Pattern,
    budget: u32,
    list: &mut [u32],
    scratch: &mut [u64],
) -> Answer
    requires { Allowed method (text_of text.now n) (lent pattern) mark.at.0 scratch.old }
    ensures { Leaves method (text_of text.now n) (lent pattern.entry) mark.at.0 budget list.old scratch.old result list.new scratch.new }
{
    match method {
        Method::Plain => by::<Plain>(mark, text, n, pattern, budget, list, scratch),
        Method::Hash => by::<Hash>(mark, text, n, pattern, budget, list, scratch),
        Method::Skip => by::<Skip>(mark, text, n, pattern, budget, list, scratch),
        Method::Wide => by::<Wide>(mark, text, n, pattern, budget, list, scratch),
        Method::Tail => by::<Tail>(mark, text, n, pattern, budget, list, scratch),
    }
}
