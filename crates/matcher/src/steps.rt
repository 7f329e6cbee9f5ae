// What a method is to a call: tables, and steps from any mark.
ghost use Rattle.std.specs.Prelude.{◌≡◌, ◌+◌, ◌^◌, ◌≤◌, ◌<◌, length};
ghost use Rattle.rules.specs.Occurrence.{places};
ghost use Rattle.rules.specs.Scratch.{scratch_cells};
ghost use Rattle.matcher.specs.Tables.{Prepared};
ghost use Rattle.matcher.specs.Ready.{GoodPattern};
ghost use Rattle.matcher.specs.Asked.{lent, text_in, pattern_in};
ghost use Rattle.matcher.specs.Gives.{StepGives, AdvanceGives};

use crate::query::Pattern;
use crate::search::{Rule, Search};
use bits::Place;

// How far steps have come: the next mark, how many steps are complete, and how many cells of the list they wrote.
#[derive(Clone, Copy)]
pub struct Reached {
    pub at: Place,
    pub steps: u32,
    pub hits: usize,
}

// A place that found no cell of the list. The mark is that place, and its step is not complete, so it is not counted.
#[derive(Clone, Copy)]
pub struct Full(pub Reached);

impl Full {
    // The same after so many steps, which wrote so many cells of the list.
    pub fn after(self, steps: u32, hits: usize) -> Full
        requires { (self.0.steps + steps < 2 ^ 32) × (self.0.hits + hits < 2 ^ 64) }
        ensures { (result.0.at ≡ self.0.at) × (result.0.steps ≡ steps + self.0.steps) × (result.0.hits ≡ hits + self.0.hits) }
    {
        Full(Reached {
            at: self.0.at,
            steps: steps + self.0.steps,
            hits: hits + self.0.hits,
        })
    }
}

// A method. Its steps write the places that they find to the list, from its first cell on.
pub trait Matcher: Rule {
    // Makes the tables.
    fn prepare(pattern: &Pattern, cells: &mut [u64])
        requires good_pattern { GoodPattern Self.method (lent pattern.now) }
        requires m_in_bounds { scratch_cells Self.method pattern.now.m ≤ length cells.old }
        ensures { Prepared Self.method (lent pattern.now) cells.old cells.new };

    // One step.
    fn step(search: &Search<Self>, s: Place, list: &mut [u32]) -> Result<Reached, Full>
        requires { s.0 < places (text_in search.now.query) (pattern_in search.now.query) }
        ensures { StepGives Self.method (text_in search.now.query) (pattern_in search.now.query) s.0 list.old result list.new };

    // Many steps, at most as many as the budget has.
    fn advance(
        search: &Search<Self>,
        s: Place,
        budget: u32,
        list: &mut [u32],
    ) -> Result<Reached, Full>
        requires { s.0 ≤ places (text_in search.now.query) (pattern_in search.now.query) }
        ensures { AdvanceGives Self.method (text_in search.now.query) (pattern_in search.now.query) s.0 budget list.old result list.new };
}
