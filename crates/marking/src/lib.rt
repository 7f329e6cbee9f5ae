// Marking a sitting: up to 256 sheets, each a rising list of positions, against one key. Nothing here knows of searching;
// of lists it knows what "rising" means. The call judges its whole input before it stores anything, so a refusal leaves
// the report as it was.
#![tactic(auto)]

mod judge;
mod merge;
mod report;

ghost use Rattle.std.specs.Prelude.{◌≡◌};
ghost use Rattle.marking.specs.Promise.{mark_refusal, MarksSitting};

use judge::Rising;

// No more sheets than this are marked in one call.
const SHEETS: usize = 256;

// Why a sitting is not marked.
#[derive(Clone, Copy, PartialEq, Eq, Debug)]
pub enum MarkRefusal {
    // There are more than 256 sheets.
    TooManySheets,
    // The counts do not add up to the cells.
    CountsDiffer,
    // The key, or a sheet by itself, does not rise strictly, or holds 2^30 or more.
    ListNotRising,
    // The report has fewer than three cells for each sheet.
    TargetTooShort,
}

impl MarkRefusal {
    // The number of the refusal, by documents 01 and 02, which C is told.
    pub fn number(self) -> u32
        ensures { result ≡ mark_refusal self }
    {
        match self {
            MarkRefusal::TooManySheets => 15,
            MarkRefusal::CountsDiffer => 16,
            MarkRefusal::ListNotRising => 8,
            MarkRefusal::TargetTooShort => 9,
        }
    }
}

// The columns of the report, added up over the sitting. What document 02 calls false are the false positives: the
// positions that are on a sheet only.
#[derive(Clone, Copy, PartialEq, Eq, Debug)]
pub struct Totals {
    pub right: u64,
    pub missed: u64,
    pub false_positives: u64,
}

// Marks each sheet in turn: the report gets three cells for it, right, missed and false, and the cells after those stay.
// The sheets lie one after the other in one run of cells, and `counts` says how many cells each has.
pub fn mark_sitting(
    key: &[u32],
    sheets: &[u32],
    counts: &[u64],
    target: &mut [u32],
) -> Result<Totals, MarkRefusal>
    ensures { MarksSitting key.now sheets.now counts.now target.old result target.new }
{
    if SHEETS < counts.len() {
        return Err(MarkRefusal::TooManySheets);
    }
    if !judge::add_up(counts, sheets.len()) {
        return Err(MarkRefusal::CountsDiffer);
    }
    let Some(key) = Rising::judge(key) else {
        return Err(MarkRefusal::ListNotRising);
    };
    if !judge::all_rise(sheets, counts) {
        return Err(MarkRefusal::ListNotRising);
    }
    if target.len() < 3 * counts.len() {
        return Err(MarkRefusal::TargetTooShort);
    }
    Ok(report::write(key, sheets, counts, target))
}
