// Marking a sitting: sheets against a key.
ghost use Rattle.capi.specs.Sitting.{SittingMarked};

use crate::{ANSWER_CELLS_MISSING, cells};

// Marks each sheet against the key: three report cells for each, and the totals of these columns.
#[unsafe(no_mangle)]
pub extern "C" fn mitongory_mark_sitting(
    key: &[u32],
    sheets: &[u32],
    counts: &[u64],
    report: &mut [u32],
    answer: &mut [u64],
) -> u32
    ensures { SittingMarked key.now sheets.now counts.now report.old answer.old result report.new answer.new }
{
    if answer.len() < 3 {
        return ANSWER_CELLS_MISSING;
    }
    let marked = marking::mark_sitting(key, sheets, counts, report);
    match marked {
        Err(why) => why.number(),
        Ok(t) => cells::three(answer, t.right, t.missed, t.false_positives),
    }
}
