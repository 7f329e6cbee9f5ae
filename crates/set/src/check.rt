// Refusals 1, 2, 18, then 3, 4 and 17 for each pattern in turn, and 6.
ghost use Rattle.std.specs.Prelude.{◌≡◌, cond, ◌+◌, ◌-◌, ◌^◌, ◌≤◌, ◌<◌, ltb, length, get_or};
ghost use Rattle.matcher.specs.Ready.{text_of};
ghost use Rattle.search.specs.Verdict.{judge};
ghost use Rattle.set_rules.specs.PatternSet.{pattern_from, largest};
ghost use Rattle.set_rules.specs.Verdict.{pattern_rows, rows};
ghost use Rattle.set_tables.specs.Parts.{lent};
ghost use Rattle.set.specs.Lengths.{Lengths};
ghost use Rattle.set.specs.Parts.{check_of};

use crate::Refusal;
use crate::finder::Sure;
use bits::Place;
use set_tables::Patterns;

// The largest number of places of any pattern: E.
pub fn places(n: u64, counts: &[u64]) -> u64
    requires { n ≤ 2 ^ 30 }
    ensures { result ≡ largest (λ i. (1 + n) - get_or counts.now i 0) (length counts.now) }
{
    let mut most = 0u64;
    for &m in counts {
        most = most.max((1 + n).saturating_sub(m));
    }
    most
}

// The flag of pattern i where its m bits are more than the tables compare.
fn long_flag(m: u64, i: usize) -> u64
    requires { i < 64 }
    ensures { result ≡ cond (ltb 32 m) (2 ^ i) 0 }
{
    if 32 < m { 1 << i } else { 0 }
}

// What the lengths of the patterns tell.
pub fn sure(n: u32, counts: &[u64]) -> Sure
    requires { (n ≤ 2 ^ 30) × (length counts.now ≤ 64) }
    ensures { Lengths n counts.now result.until result.long }
{
    let mut longest = 0u64;
    let mut long = 0u64;
    for (i, &m) in counts.iter().enumerate() {
        longest = longest.max(m);
        long |= long_flag(m, i);
    }
    Sure {
        until: (1 + n as u64).saturating_sub(longest) as u32,
        long,
    }
}

// Refusals 3, 4 and 17 of the pattern of m bits that begins at byte `start`.
fn check_pattern(patterns: &Patterns, start: usize, m: u64) -> Result<(), Refusal>
    requires { start ≤ 2 ^ 30 }
    ensures { check_of result ≡ judge (pattern_rows (pattern_from patterns.now.bytes.now patterns.now.fixed.now start m)) tt }
{
    if m == 0 {
        return Err(Refusal::PatternLength);
    }
    if 2048 < m {
        return Err(Refusal::PatternLength);
    }
    let end = start as u64 + bits::bytes_for(m);
    if (patterns.bytes.len() as u64) < end {
        return Err(Refusal::PatternBytesMissing);
    }
    if (patterns.fixed.len() as u64) < end {
        return Err(Refusal::FixedBytesMissing);
    }
    Ok(())
}

// The first refusal whose condition holds.
#[tactic(auto, using(crate::proofs::Rows::set_large))]
pub fn check(text: &[u8], n: u64, patterns: &Patterns, mark: Place) -> Result<(), Refusal>
    ensures { check_of result ≡ judge (rows (text_of text.now n) (lent patterns.now) mark.0) tt }
{
    if 1073741824 < n {
        return Err(Refusal::TextTooLong);
    }
    if (text.len() as u64) < bits::bytes_for(n) {
        return Err(Refusal::TextBytesMissing);
    }
    let counts = patterns.counts;
    if counts.len() == 0 {
        return Err(Refusal::SetSize);
    }
    if 64 < counts.len() {
        return Err(Refusal::SetSize);
    }
    let mut start = 0usize;
    for &m in counts {
        check_pattern(patterns, start, m)?;
        start += bits::bytes_for(m) as usize;
    }
    if places(n, counts) < mark.0 as u64 {
        return Err(Refusal::BeyondEnd);
    }
    Ok(())
}
