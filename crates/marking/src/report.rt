// The report of a sitting that was judged good: three cells for each sheet, and the totals of the columns.
ghost use Rattle.std.specs.Prelude.{◌≡◌, true, [], ◌∷◌, ◌+◌, ◌*◌, ◌≤◌, length};
ghost use Rattle.std.proofs.lemmas.List.Edits.{sets};
ghost use Rattle.marking.specs.Sitting.{sum, sheets_of, all_rise, all_marks, report_of, totals_of};
ghost use Rattle.marking.specs.Promise.{totalled};
ghost use Rattle.marking.specs.Inner.{Sheet};

use crate::judge::Rising;
use crate::{Totals, merge};

// What one sheet comes to.
#[derive(Clone, Copy)]
pub(crate) struct SheetMarks {
    pub right: u32,
    pub missed: u32,
    pub false_positives: u32,
}

// Marks one sheet. Each list is its shared positions and the others, so that the merge need count the shared ones alone.
fn sheet_marks(key: Rising, sheet: Rising) -> SheetMarks
    ensures { Sheet key.entry.list.now sheet.entry.list.now result }
{
    let right = merge::right(key, sheet);
    SheetMarks {
        right: right as u32,
        missed: (key.list.len() - right) as u32,
        false_positives: (sheet.list.len() - right) as u32,
    }
}

// Stores the three cells of a sheet, by three stores: `copy_from_slice` makes an array of them first, and small sheets took up to
// a third longer.
fn put(target: &mut [u32], at: usize, m: SheetMarks)
    requires { at + 3 ≤ length target.old }
    ensures { target.new ≡ sets target.old at (m.right ∷ m.missed ∷ m.false_positives ∷ []) }
{
    target[at] = m.right;
    target[at + 1] = m.missed;
    target[at + 2] = m.false_positives;
}

// Marks every sheet in turn.
pub(crate) fn write(key: Rising, sheets: &[u32], counts: &[u64], target: &mut [u32]) -> Totals
    requires few_sheets { length counts.now ≤ 256 }
    requires cells_enough { sum counts.now ≤ length sheets.now }
    requires sheets_rise { all_rise (sheets_of sheets.now counts.now) ≡ true }
    requires report_fits { 3 * length counts.now ≤ length target.old }
    ensures totals { totalled result ≡ totals_of (all_marks key.entry.list.now sheets.now counts.now) }
    ensures stored { target.new ≡ sets target.old 0 (report_of (all_marks key.entry.list.now sheets.now counts.now)) }
{
    let mut totals = Totals {
        right: 0,
        missed: 0,
        false_positives: 0,
    };
    let mut rest = sheets;
    for (i, &count) in counts.iter().enumerate() {
        let (sheet, others) = rest.split_at(count as usize);
        let m = sheet_marks(key, Rising { list: sheet });
        put(target, 3 * i, m);
        totals.right += m.right as u64;
        totals.missed += m.missed as u64;
        totals.false_positives += m.false_positives as u64;
        rest = others;
    }
    totals
}
