// All steps of a call.
ghost use Rattle.std.specs.Prelude.{◌≡◌, ◌≤◌};
ghost use Rattle.matcher.specs.Ready.{text_of};
ghost use Rattle.set_tables.specs.Parts.{lent};
ghost use Rattle.set.specs.Parts.{Allowed, TellsOf, Leaves};

use crate::finder::Finder;
use crate::ones::Ones;
use crate::{Answer, check, step};
use bits::{Place, load};
use matcher::steps::{Full, Reached};
use search::{Mark, Stop};
use set_tables::{Patterns, scan, tables};

// A hit is a pair, which takes two cells of the list: `Reached` counts the pairs here, and not the cells.
impl<'a> Finder<'a> {
    ghost use Rattle.std.specs.Prelude.{◌≡◌, ◌≤◌};
    ghost use Rattle.set_rules.specs.PatternSet.{set_places};
    ghost use Rattle.set.specs.Parts.{text_in, set_in, Blocked, BlockGives, RunGives};

    // The places of a block of 32 that begins at `base`, those from `from` on and before `to`: at each with some flag the hits
    // are written, if they all fit. The answer is how many pairs are written.
    fn block(
        &self,
        found: &[u64],
        base: Place,
        from: Place,
        to: Place,
        list: &mut [u32],
    ) -> Result<usize, Full>
        requires { Blocked (text_in self.now) (set_in self.now) found.now base.0 from.0 to.0 }
        ensures { BlockGives (text_in self.now) (set_in self.now) from.0 to.0 list.old result list.new }
    {
        let mut numbers = [0u32; 64];
        let room = list.len() / 2;
        let skip = from.0 - base.0;
        let mut hits = 0usize;
        for e in Ones((scan::marks(found) >> skip) << skip) {
            let p = Place(base.0 + e);
            if to.0 <= p.0 {
                return Ok(hits);
            }
            let count = self.find(p, found[e as usize], &mut numbers);
            if room - hits < count {
                return Err(Full(Reached {
                    at: p,
                    steps: p.0 - from.0,
                    hits,
                }));
            }
            step::write(&mut list[2 * hits..], p, &numbers[..count]);
            hits += count;
        }
        Ok(hits)
    }

    // Steps from s until the places, the budget or the room for pairs are at an end, 32 places at a time. The steps of places
    // without a flag find nothing; if the pairs of a place do not all fit, its step is not counted.
    fn run(&self, s: Place, end: Place, budget: u32, list: &mut [u32]) -> Result<Reached, Full>
        requires inside { s.0 ≤ end.0 }
        requires end_value { end.0 ≡ set_places (text_in self.now) (set_in self.now) }
        ensures { RunGives (text_in self.now) (set_in self.now) s.0 budget list.old result list.new }
    {
        let mut found = [0u64; 32];
        let limit = s.0.saturating_add(budget).min(end.0);
        let mut at = s.0;
        let mut hits = 0usize;
        while at < limit {
            let from = Place(at);
            let b = from.byte();
            let base = b.place();
            let any = scan::look(self.cells, load::word_at_byte(self.text, b), &mut found);
            let to = (base.0 + 32).min(limit);
            if any != 0 {
                let one = self.block(&found, base, from, Place(to), &mut list[2 * hits..]);
                hits += match one {
                    Ok(more) => more,
                    Err(full) => return Err(full.after(at - s.0, hits)),
                };
            }
            at = to;
        }
        Ok(Reached {
            at: Place(limit),
            steps: limit - s.0,
            hits,
        })
    }
}

// The answer by what the steps left. `search` has the same for its own answer, whose count of hits is narrower: a function of
// both would take the three fields that are alike and give them back.
fn answer(left: Result<Reached, Full>, end: Place) -> Answer
    ensures { TellsOf result left end.0 }
{
    let (there, stop) = match left {
        Err(Full(there)) => (there, Stop::Full(there.at)),
        Ok(there) if there.at == end => (there, Stop::Done),
        Ok(there) => (there, Stop::Spent),
    };
    Answer {
        steps: there.steps,
        occurrences: there.hits as u64,
        mark: Mark { at: there.at },
        stop,
    }
}

// A call that has passed the check.
pub fn accepted(
    mark: Place,
    text: &[u8],
    n: u32,
    patterns: &Patterns,
    budget: u32,
    list: &mut [u32],
) -> Answer
    requires { Allowed (text_of text.now n) (lent patterns.now) mark.0 }
    ensures { Leaves (text_of text.now n) (lent patterns.now) mark.0 budget list.old result list.new }
{
    let mut rows = [0u64; 192];
    let mut halves = [0u64; 128];
    let mut cells = [0u64; 1024];
    tables::enter_all(patterns, &mut rows, &mut halves);
    tables::pair_up(&halves, &mut cells);
    let end = Place(check::places(n as u64, patterns.counts) as u32);
    let finder = Finder {
        text,
        n,
        patterns: *patterns,
        rows: &rows,
        sure: check::sure(n, patterns.counts),
        cells: &cells,
    };
    answer(finder.run(mark, end, budget, list), end)
}
