// H(B) by itself, on any input: the least move at which the pattern shows the value B.
ghost use Rattle.std.specs.Prelude.{◌≡◌};
ghost use Rattle.search.specs.Verdict.{hash_verdict};
ghost use Rattle.search.specs.HashAnswers.{hash_answer};
ghost use Rattle.matcher.specs.Ready.{pattern_of};

use crate::Refusal;
use hash_tables::value;
use matcher::query::Pattern;

// H(B) of the first m bits of the pattern, with refusals 3, 4, 17 and 5.
#[tactic(auto, using(crate::proofs::Rows::hash_unfit))]
pub fn hash_value(pattern: &[u8], fixed: &[u8], m: u64, value: u8) -> Result<u32, Refusal>
    ensures { hash_answer result ≡ hash_verdict (pattern_of pattern.now fixed.now m) value }
{
    if m == 0 {
        return Err(Refusal::PatternLength);
    }
    if 2048 < m {
        return Err(Refusal::PatternLength);
    }
    if (pattern.len() as u64) < bits::bytes_for(m) {
        return Err(Refusal::PatternBytesMissing);
    }
    if (fixed.len() as u64) < bits::bytes_for(m) {
        return Err(Refusal::FixedBytesMissing);
    }
    if m < 8 {
        return Err(Refusal::PatternUnfit);
    }
    let pattern = Pattern {
        bytes: pattern,
        fixed,
        m: m as u32,
    };
    Ok(value::hash_of(&pattern, value))
}
