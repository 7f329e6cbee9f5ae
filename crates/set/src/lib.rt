// A set of 1 to 64 patterns searched for in one pass. Mark, budget and ways to stop are those of the search for one
// pattern. A step decides one place for all patterns, and a hit is a pair of place and pattern number.
//
// The method: tables of 256 words (`set_tables`) tell which patterns begin with given bits, a flag for each pattern. Table 0
// goes by a place's first eight bits, table 1 by the next eight, and so on. Four loads and three `and` leave the flags of the
// patterns whose first 32 bits agree with the text at a place; mostly no flag stands, and so no pattern does. Where flags
// stand, those patterns have to fit, and the ones of more than 32 bits are compared by all of their bits.
#![tactic(auto)]

mod call;
mod check;
mod finder;
mod ones;
mod step;

ghost use Rattle.std.specs.Prelude.{◌≡◌};
ghost use Rattle.matcher.specs.Ready.{text_of};
ghost use Rattle.set_tables.specs.Parts.{set_of};
ghost use Rattle.set.specs.Promise.{number_of_refusal, Searched};

use search::{Mark, Stop};
use set_tables::Patterns;

// The answer of an accepted call. The occurrences are pairs.
#[derive(Clone, Copy, PartialEq, Eq, Debug)]
pub struct Answer {
    pub steps: u32,
    pub occurrences: u64,
    pub mark: Mark,
    pub stop: Stop,
}

// Why a call was refused.
#[derive(Clone, Copy, PartialEq, Eq, Debug)]
pub enum Refusal {
    TextTooLong,
    TextBytesMissing,
    SetSize,
    PatternLength,
    PatternBytesMissing,
    FixedBytesMissing,
    BeyondEnd,
}

impl Refusal {
    // The number of the refusal, by documents 01 and 02.
    pub fn number(self) -> u32
        ensures { result ≡ number_of_refusal self }
    {
        match self {
            Refusal::TextTooLong => 1,
            Refusal::TextBytesMissing => 2,
            Refusal::SetSize => 18,
            Refusal::PatternLength => 3,
            Refusal::PatternBytesMissing => 4,
            Refusal::FixedBytesMissing => 17,
            Refusal::BeyondEnd => 6,
        }
    }
}

// Lists the hits from the mark on: pairs of a place and the number of a pattern that stands there in the first n bits of the
// text, as far as the budget of steps and the cells of the list go. Each pattern begins on the byte after the one before, in
// `patterns` and in its second run `fixed`; `counts` has the bit count of each. A pair takes two cells. If the hits of a
// place do not all fit, none of them is written. A refused call changes nothing.
pub fn search_set(
    mark: Mark,
    text: &[u8],
    n: u64,
    patterns: &[u8],
    fixed: &[u8],
    counts: &[u64],
    budget: u32,
    list: &mut [u32],
) -> Result<Answer, Refusal>
    ensures { Searched (record { text = text_of text.entry.now n; patterns = set_of patterns.now fixed.now counts.now; mark = mark.at.0; budget = budget; list = list.old }) result list.new }
{
    let patterns = Patterns {
        bytes: patterns,
        fixed,
        counts,
    };
    check::check(text, n, &patterns, mark.at)?;
    Ok(call::accepted(mark.at, text, n as u32, &patterns, budget, list))
}
