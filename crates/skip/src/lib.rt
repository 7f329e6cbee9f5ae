// The skip method: one whole byte of the text decides many places. The byte is b, the last whole one inside the mark's place, so
// each place from the mark to 8 b contains it. The pattern can stand at the place 8 b - j only where it shows the byte at the
// index j. The tables (`skip_tables`) tell these indices, highest first; so their places rise, and only these are compared.
//
// After a step the mark is 8 b + 1: `first_step` makes one step from any mark, through links that keep to its places, and `many`
// makes many from such marks. It has a loop for bytes that no index shows, which are most bytes of most texts where the pattern is
// short, and leaves runs of other bytes to `busy`. All three are compiled for each kind of tables: a loop for each is faster than one
// for both.
#![tactic(auto)]

ghost use Rattle.std.specs.Prelude.{◌≡◌, ◌↔◌, true, [], IfOk, get_or, ◌+◌, ◌-◌, ◌*◌, ◌%◌, ◌≤◌, ◌<◌};
ghost use Rattle.rules.specs.Occurrence.{places, occurrences};
ghost use Rattle.rules.specs.Skip.{last_byte};
ghost use Rattle.matcher.specs.Tables.{chained};
ghost use Rattle.skip_tables.specs.SkipChains.{Flagging};
ghost use Rattle.matcher.specs.Asked.{lent, text_in, pattern_in};
ghost use Rattle.matcher.specs.Gives.{StepGives, AdvanceGives};

use bits::{ByteNo, Place};
use matcher::query::Pattern;
use matcher::search::{Rule, Search};
use matcher::steps::{Full, Matcher, Reached};
use rules::Method;
use skip_tables::{Block, Chains, Kind, Tables, Walk, Words, indices, last_byte};
use std::marker::PhantomData;

// The skip method.
pub struct Skip;

impl Rule for Skip {
    ghost use Rattle.rules.specs.declared.Method.TheVariants as methods;

    ghost method = { methods.Skip };
}

// A search whose tables are of one kind.
#[derive(Drop)]
struct SearchBy<'a, K: Kind> {
    search: &'a Search<'a, Skip>,
    of: PhantomData<K>,
    ghost holds: { K.holds (pattern_in search.now.query) search.now.cells.now } by { K.holds_prop (pattern_in search.now.query) search.now.cells.now },
}

// A place that found no cell after those written.
fn no_cell(at: Place, hits: usize) -> Full
    ensures { (result.0.at ≡ at) × (result.0.steps ≡ 0) × (result.0.hits ≡ hits) }
{
    Full(Reached { at, steps: 0, hits })
}

// One step from any mark: the places of the links from the mark on, rising, each compared.
fn first_step<K: Walk>(by: &SearchBy<K>, s: Place, list: &mut [u32]) -> Result<Reached, Full>
    requires { s.0 < places (text_in by.now.search.now.query) (pattern_in by.now.search.now.query) }
    ensures { StepGives Method.Skip (text_in by.now.search.now.query) (pattern_in by.now.search.now.query) s.0 list.old result list.new }
{
    let query = &by.search.query;
    let m = query.pattern.m;
    let tables: Tables<K> = Tables {
        pattern: &query.pattern,
        cells: by.search.cells,
        of: PhantomData,
    };
    let at = s.0;
    let b = last_byte(s, m);
    let top = b.place_at(1).0;
    let stop = matcher::cut(top, query.n - m + 1);
    let low = top - stop;
    let byte = b.0;
    let v = query.text[byte];
    let mut links = K::first(&tables, v, top - at);
    let mut hits = 0usize;
    while (low as u64) < links.first {
        let a = (top as u64 - links.first) as u32;
        if query.same(Place(a)) {
            if list.len() <= hits {
                return Err(no_cell(Place(a), hits));
            }
            list[hits] = a;
            hits += 1;
        }
        links = K::next(&tables, v, links);
    }
    Ok(Reached {
        at: Place(stop),
        steps: 1,
        hits,
    })
}

// Steps from marks 8 a + 1, none of whose places lies past the number of places.
trait Steps: Walk {
    // Whether one look tells that no index shows the byte b, so that the step by it finds nothing.
    fn quiet(by: &SearchBy<Self>, b: ByteNo) -> bool
        requires { (chained by.now.search.now.query.pattern.m ≤ 8 * b.0) × (8 * b.0 < places (text_in by.now.search.now.query) (pattern_in by.now.search.now.query)) }
        ensures { result ≡ true → occurrences (text_in by.now.search.now.query) (pattern_in by.now.search.now.query) (8 * b.0 + 1 - chained by.now.search.now.query.pattern.m) (8 * b.0 + 1) ≡ [] };

    // The step by the last byte b that all its places contain: they are those of the indices that show the byte. The mark lies
    // as many places before 8 b + 1 as indices are chained.
    fn step(by: &SearchBy<Self>, b: ByteNo, list: &mut [u32]) -> Result<Reached, Full>
        requires { (chained by.now.search.now.query.pattern.m ≤ 8 * b.0) × (8 * b.0 < places (text_in by.now.search.now.query) (pattern_in by.now.search.now.query)) }
        ensures { StepGives Method.Skip (text_in by.now.search.now.query) (pattern_in by.now.search.now.query) (8 * b.0 + 1 - chained by.now.search.now.query.pattern.m) list.old result list.new };
}

// The places of b's chain, from its head on, each compared. The place of a link j is 8 b + 1 - j.
fn walk(by: &SearchBy<Chains>, b: ByteNo, list: &mut [u32]) -> Result<Reached, Full>
    requires { (chained by.now.search.now.query.pattern.m ≤ 8 * b.0) × (8 * b.0 < places (text_in by.now.search.now.query) (pattern_in by.now.search.now.query)) }
    ensures { StepGives Method.Skip (text_in by.now.search.now.query) (pattern_in by.now.search.now.query) (8 * b.0 + 1 - chained by.now.search.now.query.pattern.m) list.old result list.new }
{
    let query = &by.search.query;
    let cells = by.search.cells;
    let byte = b.0;
    let top = b.place().0 as usize + 1;
    let mut next = cells[query.text[byte] as usize] as usize;
    let mut hits = 0usize;
    while next != 0 {
        let p = (top - next) as u32;
        if query.same(Place(p)) {
            if list.len() <= hits {
                return Err(no_cell(Place(p), hits));
            }
            list[hits] = p;
            hits += 1;
        }
        next = cells[255 + next] as usize;
    }
    Ok(Reached {
        at: Place(top as u32),
        steps: 1,
        hits,
    })
}

impl Steps for Chains {
    fn quiet(by: &SearchBy<Chains>, b: ByteNo) -> bool {
        let query = &by.search.query;
        let cells = by.search.cells;
        let here = b.0;
        cells[query.text[here] as usize] == 0
    }

    fn step(by: &SearchBy<Chains>, b: ByteNo, list: &mut [u32]) -> Result<Reached, Full> {
        walk(by, b, list)
    }
}

// The flags of a block after those of another, lowest first, from this block on. The place of a block's flag e is 8 b + 8 + 57 times
// the block's number + e, less m.
fn sweep(by: &SearchBy<Words>, b: ByteNo, first: Block, list: &mut [u32]) -> Result<Reached, Full>
    requires m_bound { (chained by.now.search.now.query.pattern.m ≤ 8 * b.0) × (8 * b.0 < places (text_in by.now.search.now.query) (pattern_in by.now.search.now.query)) }
    requires flagging { Flagging (pattern_in by.now.search.now.query) (get_or by.now.search.now.query.text.now b.0 0) (chained by.now.search.now.query.pattern.m) first.number first.left }
    ensures { StepGives Method.Skip (text_in by.now.search.now.query) (pattern_in by.now.search.now.query) (8 * b.0 + 1 - chained by.now.search.now.query.pattern.m) list.old result list.new }
{
    let query = &by.search.query;
    let m = query.pattern.m;
    let tables: Tables<Words> = Tables {
        pattern: &query.pattern,
        cells: by.search.cells,
        of: PhantomData,
    };
    let byte = b.0;
    let v = query.text[byte];
    let from = b.place().0 + 8;
    let mut block = first;
    let mut hits = 0usize;
    while let Some(next) = tables.next_block(v, block) {
        let start = from + 57 * next.number;
        let mut left = next.left;
        while left != 0 {
            let p = start + left.trailing_zeros() - m;
            left = left & (left - 1);
            if query.same(Place(p)) {
                if list.len() <= hits {
                    return Err(no_cell(Place(p), hits));
                }
                list[hits] = p;
                hits += 1;
            }
        }
        block = Block { left, ..next };
    }
    let at = b.place_at(1);
    Ok(Reached { at, steps: 1, hits })
}

impl Steps for Words {
    // No: to look for a flag takes as long as the step.
    fn quiet(_by: &SearchBy<Words>, _b: ByteNo) -> bool {
        false
    }

    fn step(by: &SearchBy<Words>, b: ByteNo, list: &mut [u32]) -> Result<Reached, Full> {
        let query = &by.search.query;
        let m = query.pattern.m;
        let tables: Tables<Words> = Tables {
            pattern: &query.pattern,
            cells: by.search.cells,
            of: PhantomData,
        };
        let byte = b.0;
        let v = query.text[byte];
        sweep(by, b, tables.first_block(v, indices(m)), list)
    }
}

// Steps from a mark 8 a + 1, the first of them made whatever its byte is, and more up to a byte that is quiet.
fn busy<K: Steps>(
    by: &SearchBy<K>,
    s: Place,
    budget: u32,
    list: &mut [u32],
) -> Result<Reached, Full>
    requires s_bound { (s.0 % 8 ≡ 1) × (0 < budget) }
    requires inside { 8 * last_byte (pattern_in by.now.search.now.query) s.0 < places (text_in by.now.search.now.query) (pattern_in by.now.search.now.query) }
    ensures advanced { AdvanceGives Method.Skip (text_in by.now.search.now.query) (pattern_in by.now.search.now.query) s.0 budget list.old result list.new }
    ensures onward { IfOk result (λ r. (r.at.0 % 8 ≡ 1) × (0 < r.steps)) }
{
    let query = &by.search.query;
    let m = query.pattern.m;
    let end = query.n - m + 1;
    let stride = Place(indices(m)).byte().0;
    let mut b = last_byte(s, m);
    let mut steps = 0u32;
    let mut hits = 0usize;
    loop {
        match K::step(by, b, &mut list[hits..]) {
            Ok(one) => {
                hits += one.hits;
            }
            Err(cut) => return Err(cut.after(steps, hits)),
        }
        steps += 1;
        let at = b.place_at(1);
        b = ByteNo(b.0 + stride);
        if end <= b.place().0 || budget <= steps || K::quiet(by, b) {
            return Ok(Reached { at, steps, hits });
        }
    }
}

// A run of steps as `busy` makes it, by a call that fits the kind.
trait Runs: Steps {
    fn run(by: &SearchBy<Self>, s: Place, budget: u32, list: &mut [u32]) -> Result<Reached, Full>
        requires s_bound { (s.0 % 8 ≡ 1) × (0 < budget) }
        requires inside { 8 * last_byte (pattern_in by.now.search.now.query) s.0 < places (text_in by.now.search.now.query) (pattern_in by.now.search.now.query) }
        ensures advanced { AdvanceGives Method.Skip (text_in by.now.search.now.query) (pattern_in by.now.search.now.query) s.0 budget list.old result list.new }
        ensures onward { IfOk result (λ r. (r.at.0 % 8 ≡ 1) × (0 < r.steps)) };
}

impl Runs for Chains {
    // By `cold` the loop over quiet bytes keeps its registers. The search is taken out of what is lent once: for all that the compiler
    // can tell, what is lent changes with each place that is written to the list, and would be loaded again for each step.
    #[cold]
    fn run(
        by: &SearchBy<Chains>,
        s: Place,
        budget: u32,
        list: &mut [u32],
    ) -> Result<Reached, Full> {
        busy::<Chains>(
            &SearchBy {
                search: by.search,
                of: PhantomData,
            },
            s,
            budget,
            list,
        )
    }
}

impl Runs for Words {
    // This makes all steps, since no byte is quiet. It has a copy of the search, which no place that is written can change: so what is
    // the same for each step, such as which flags of the first block lie before the mark, is worked out once. (By chains a copy takes
    // longer than it saves.)
    #[inline(never)]
    fn run(by: &SearchBy<Words>, s: Place, budget: u32, list: &mut [u32]) -> Result<Reached, Full> {
        let own: Search<Skip> = Search {
            query: by.search.query,
            cells: by.search.cells,
            of: PhantomData,
        };
        busy::<Words>(
            &SearchBy {
                search: &own,
                of: PhantomData,
            },
            s,
            budget,
            list,
        )
    }
}

// Many steps, each from a mark 8 a + 1: its byte is b, and that of the next mark, 8 b + 1, lies as many bits on as indices are
// chained. The last step, whose places need not all lie below the number of places, is for `first_step`.
fn many<K: Runs>(by: &SearchBy<K>, s: Place, budget: u32, list: &mut [u32]) -> Result<Reached, Full>
    requires { (s.0 ≤ places (text_in by.now.search.now.query) (pattern_in by.now.search.now.query)) × (s.0 % 8 ≡ 1) }
    ensures { AdvanceGives Method.Skip (text_in by.now.search.now.query) (pattern_in by.now.search.now.query) s.0 budget list.old result list.new }
{
    let query = &by.search.query;
    let m = query.pattern.m;
    let end = query.n - m + 1;
    let stride = Place(indices(m)).byte().0;
    let mut at = s.0;
    let mut b = last_byte(s, m);
    let mut steps = 0u32;
    let mut hits = 0usize;
    while b.place().0 < end && steps < budget {
        if K::quiet(by, b) {
            steps += 1;
            at = b.place_at(1).0;
            b = ByteNo(b.0 + stride);
        } else {
            match K::run(by, Place(at), budget - steps, &mut list[hits..]) {
                Ok(more) => {
                    steps += more.steps;
                    hits += more.hits;
                    at = more.at.0;
                    b = last_byte(more.at, m);
                }
                Err(cut) => return Err(cut.after(steps, hits)),
            }
        }
    }
    Ok(Reached {
        at: Place(at),
        steps,
        hits,
    })
}

// Whether the tables are chains.
fn in_chains(search: &Search<Skip>) -> bool
    ensures { (result ≡ true) ↔ (get_or search.now.cells.now (255 + search.now.query.pattern.m) 0 ≡ 0) }
{
    let cells = search.cells;
    cells[255 + search.query.pattern.m as usize] == 0
}

impl Matcher for Skip {
    fn prepare(pattern: &Pattern, cells: &mut [u64]) {
        skip_tables::prepare(pattern, cells)
    }

    fn step(search: &Search<Skip>, s: Place, list: &mut [u32]) -> Result<Reached, Full> {
        if in_chains(search) {
            first_step::<Chains>(
                &SearchBy {
                    search,
                    of: PhantomData,
                },
                s,
                list,
            )
        } else {
            first_step::<Words>(
                &SearchBy {
                    search,
                    of: PhantomData,
                },
                s,
                list,
            )
        }
    }

    // From a mark that is not 8 a + 1 it makes no step: only a call's first mark is one.
    #[tactic(auto, using(matcher::proofs::Advancing::advanced_none))]
    fn advance(
        search: &Search<Skip>,
        s: Place,
        budget: u32,
        list: &mut [u32],
    ) -> Result<Reached, Full> {
        if s.offset() != 1 {
            return Ok(Reached {
                at: s,
                steps: 0,
                hits: 0,
            });
        }
        if in_chains(search) {
            many::<Chains>(
                &SearchBy {
                    search,
                    of: PhantomData,
                },
                s,
                budget,
                list,
            )
        } else {
            many::<Words>(
                &SearchBy {
                    search,
                    of: PhantomData,
                },
                s,
                budget,
                list,
            )
        }
    }
}
