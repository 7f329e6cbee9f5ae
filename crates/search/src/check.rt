// Refusals 1, 2, 3, 4, 17, 5, 6 and 7 of a search call, in that order.
ghost use Rattle.std.specs.Prelude.{◌≡◌, ◌+◌, ◌-◌, ◌^◌, ◌≤◌};
ghost use Rattle.rules.specs.Step.{unfit};
ghost use Rattle.matcher.specs.Ready.{text_of, pattern_of};
ghost use Rattle.search.specs.Parts.{check_of, check_verdict};

use crate::{Method, Refusal};
use bits::Place;

// Whether the method takes no pattern of m bits.
pub fn does_not_fit(method: Method, m: u64) -> bool
    ensures { result ≡ unfit method m }
{
    match method {
        Method::Plain => false,
        Method::Hash => m < 8,
        Method::Skip => m < 15,
        Method::Wide => false,
        Method::Tail => 64 < m,
    }
}

// The number of places, document 01's E.
pub fn places(n: u64, m: u64) -> u64
    requires { n ≤ 2 ^ 30 }
    ensures { result ≡ (1 + n) - m }
{
    if n < m { 0 } else { n - m + 1 }
}

// The first refusal whose condition holds.
pub fn check(
    text: &[u8],
    n: u64,
    pattern: &[u8],
    fixed: &[u8],
    m: u64,
    method: Method,
    mark: Place,
    scratch: &[u64],
) -> Result<(), Refusal>
    ensures { check_of result ≡ check_verdict (text_of text.now n) (pattern_of pattern.now fixed.now m) method mark.0 scratch.now }
{
    if 1073741824 < n {
        return Err(Refusal::TextTooLong);
    }
    if (text.len() as u64) < bits::bytes_for(n) {
        return Err(Refusal::TextBytesMissing);
    }
    if m == 0 {
        return Err(Refusal::PatternLength);
    }
    if 2048 < m {
        return Err(Refusal::PatternLength);
    }
    if (pattern.len() as u64) < bits::bytes_for(m) {
        return Err(Refusal::PatternBytesMissing);
    }
    if (fixed.len() as u64) < bits::bytes_for(m) {
        return Err(Refusal::FixedBytesMissing);
    }
    if does_not_fit(method, m) {
        return Err(Refusal::PatternUnfit);
    }
    if places(n, m) < mark.0 as u64 {
        return Err(Refusal::BeyondEnd);
    }
    if (scratch.len() as u64) < method.scratch_cells(m as u32) {
        return Err(Refusal::ScratchTooShort);
    }
    Ok(())
}
