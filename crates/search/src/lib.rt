// Search for a pattern of bits in a packed text, in five ways. The types that a call takes and gives; what they mean is
// in specs/, and the theorems about every list of calls are in proofs/.
#![tactic(auto)]

mod call;
mod check;
pub mod hash_value;
pub mod scratch_cells;

ghost use Rattle.std.specs.Prelude.{◌≡◌, ◌<◌};
ghost use Rattle.rules.specs.Occurrence.{places};
ghost use Rattle.search.specs.Verdict.{number_of_refusal, Searched};
ghost use Rattle.search.specs.Parts.{StepMade};
ghost use Rattle.matcher.specs.Ready.{text_of, pattern_of};
ghost use Rattle.matcher.specs.Asked.{text_in, pattern_in};

use bits::Place;
use matcher::query::Pattern;
use matcher::search::Search;
use matcher::steps::{Full, Matcher};
pub use rules::Method;

// How far a search has come: the first place that is not yet decided.
#[derive(Clone, Copy, PartialEq, Eq, Debug)]
pub struct Mark {
    pub at: Place,
}

// How an accepted call stopped. `Full` carries the occurrence that found no free cell.
#[derive(Clone, Copy, PartialEq, Eq, Debug)]
pub enum Stop {
    Done,
    Full(Place),
    Spent,
}

// The answer of an accepted call.
#[derive(Clone, Copy, PartialEq, Eq, Debug)]
pub struct Answer {
    pub steps: u32,
    pub occurrences: u32,
    pub mark: Mark,
    pub stop: Stop,
}

// Why a call was refused.
#[derive(Clone, Copy, PartialEq, Eq, Debug)]
pub enum Refusal {
    TextTooLong,
    TextBytesMissing,
    PatternLength,
    PatternBytesMissing,
    FixedBytesMissing,
    PatternUnfit,
    BeyondEnd,
    ScratchTooShort,
}

impl Refusal {
    // Document 01's number of the refusal.
    pub fn number(self) -> u32
        ensures { result ≡ number_of_refusal self }
    {
        match self {
            Refusal::TextTooLong => 1,
            Refusal::TextBytesMissing => 2,
            Refusal::PatternLength => 3,
            Refusal::PatternBytesMissing => 4,
            Refusal::FixedBytesMissing => 17,
            Refusal::PatternUnfit => 5,
            Refusal::BeyondEnd => 6,
            Refusal::ScratchTooShort => 7,
        }
    }
}

impl Mark {
    // A fresh mark: no place is decided.
    pub fn new() -> Mark
        ensures { result.at.0 ≡ 0 }
    {
        Mark { at: Place(0) }
    }

    // Lists the places from the mark on where the pattern of m bits stands in the first n bits of the text, as far as the
    // budget of steps and the cells of the list go. A bit of the pattern whose bit in the second run is 0 is wild: it agrees
    // with both values. A refused call changes nothing.
    pub fn search(
        self,
        text: &[u8],
        n: u64,
        pattern: &[u8],
        fixed: &[u8],
        m: u64,
        method: Method,
        budget: u32,
        list: &mut [u32],
        scratch: &mut [u64],
    ) -> Result<Answer, Refusal>
        ensures { Searched (record { text = text_of text.entry.now n; pattern = pattern_of pattern.now fixed.now m; method = method; mark = self.at.0; budget = budget; list = list.old; scratch = scratch.old }) result list.new scratch.new }
    {
        check::check(text, n, pattern, fixed, m, method, self.at, scratch)?;
        let pattern = Pattern {
            bytes: pattern,
            fixed,
            m: m as u32,
        };
        Ok(call::accepted(self, method, text, n as u32, pattern, budget, list, scratch))
    }

    // One step by the rule of the method M: the advanced mark beside how many places it wrote.
    fn step<M: Matcher>(self, search: &Search<M>, list: &mut [u32]) -> Result<(Mark, usize), Full>
        requires { self.at.0 < places (text_in search.now.query) (pattern_in search.now.query) }
        ensures { StepMade M.method (text_in search.now.query) (pattern_in search.now.query) self.at.0 list.old result list.new }
    {
        let made = M::step(search, self.at, list)?;
        Ok((Mark { at: made.at }, made.hits))
    }
}
