// How many cells of scratch a search takes, by itself, on any input.
ghost use Rattle.std.specs.Prelude.{◌≡◌};
ghost use Rattle.search.specs.Verdict.{scratch_verdict};
ghost use Rattle.search.specs.Scratch.{cells_answer};

use crate::{Method, Refusal, check};

// The cells that the method takes for a pattern of m bits, with refusals 3 and 5.
#[tactic(auto, using(crate::proofs::Rows::cells_long))]
pub fn scratch_cells(method: Method, m: u64) -> Result<u64, Refusal>
    ensures { cells_answer result ≡ scratch_verdict method m }
{
    if m == 0 {
        return Err(Refusal::PatternLength);
    }
    if 2048 < m {
        return Err(Refusal::PatternLength);
    }
    if check::does_not_fit(method, m) {
        return Err(Refusal::PatternUnfit);
    }
    Ok(method.scratch_cells(m as u32))
}
