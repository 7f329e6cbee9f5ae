// A naive marker of sittings, from document 02's words: each position is looked for in the whole of the other list.
use draws::cells::part;
use draws::judged::Refused;
use draws::number::Low;

const LIMIT: u32 = 1073741824;

// A sitting: the key, the sheets, one after the other, and how many cells each of them has; and the cells of the report.
#[derive(Clone, Copy)]
pub(crate) struct Sitting<'a> {
    pub key: &'a [u32],
    pub sheets: &'a [u32],
    pub counts: &'a [u64],
    pub room: usize,
}

// What a sheet comes to, or a whole sitting.
#[derive(Clone, Copy, PartialEq, Eq)]
pub(crate) struct Marks {
    pub right: usize,
    pub missed: usize,
    pub false_positives: usize,
}

// What a sitting comes to, and whether the report has the cells of each sheet.
#[derive(Clone, Copy)]
pub(crate) struct Marked {
    pub totals: Marks,
    pub reported: bool,
}

// How many positions of a list are on the other one.
fn common(list: &[u32], other: &[u32]) -> usize {
    list.iter().filter(|&p| other.contains(p)).count()
}

// How many are not.
fn missing(list: &[u32], other: &[u32]) -> usize {
    list.iter().filter(|&p| !other.contains(p)).count()
}

impl Marks {
    fn of_sheet(key: &[u32], sheet: &[u32]) -> Marks {
        Marks {
            right: common(key, sheet),
            missed: missing(key, sheet),
            false_positives: missing(sheet, key),
        }
    }

    fn plus(self, other: Marks) -> Marks {
        Marks {
            right: self.right.wrapping_add(other.right),
            missed: self.missed.wrapping_add(other.missed),
            false_positives: self.false_positives.wrapping_add(other.false_positives),
        }
    }

    // Whether three cells of a report say so.
    fn are_in(self, cells: &[u32]) -> bool {
        let marks = [
            u32::low(self.right),
            u32::low(self.missed),
            u32::low(self.false_positives),
        ];
        cells == marks.as_slice()
    }
}

// The sum of the counts, if it is below 2^64.
fn sum(counts: &[u64]) -> Option<u64> {
    let mut sum: u64 = 0;
    for &count in counts {
        sum = sum.checked_add(count)?;
    }
    Some(sum)
}

// Whether each position is below 2^30 and above the one before it.
fn rises(list: &[u32]) -> bool {
    list.iter().all(|&p| p < LIMIT) && list.is_sorted_by(|a, b| a < b)
}

fn sheets_rise(sheets: &[u32], counts: &[u64]) -> bool {
    let mut at: usize = 0;
    for &count in counts {
        if !rises(part(sheets, at, count as usize)) {
            return false;
        }
        at = at.wrapping_add(count as usize);
    }
    true
}

impl<'a> Sitting<'a> {
    // The first refusal that applies.
    fn check(self) -> Result<(), Refused> {
        if 256 < self.counts.len() {
            return Err(Refused(15));
        }
        if sum(self.counts) != Some(self.sheets.len() as u64) {
            return Err(Refused(16));
        }
        if !(rises(self.key) && sheets_rise(self.sheets, self.counts)) {
            return Err(Refused(8));
        }
        if self.room < 3 * self.counts.len() {
            return Err(Refused(9));
        }
        Ok(())
    }
}

// What a sitting comes to.
pub(crate) fn mark(sitting: Sitting<'_>, report: &[u32]) -> Result<Marked, Refused> {
    sitting.check()?;
    let mut totals = Marks {
        right: 0,
        missed: 0,
        false_positives: 0,
    };
    let mut reported = true;
    let mut at: usize = 0;
    for (i, &count) in sitting.counts.iter().enumerate() {
        let sheet = part(sitting.sheets, at, count as usize);
        let marks = Marks::of_sheet(sitting.key, sheet);
        totals = totals.plus(marks);
        reported = reported && marks.are_in(part(report, i.wrapping_mul(3), 3));
        at = at.wrapping_add(count as usize);
    }
    Ok(Marked { totals, reported })
}
