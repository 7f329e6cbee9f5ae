// What is judged before anything is stored: whether the counts add up to the cells, and whether key and sheets rise.
ghost use Rattle.std.specs.Prelude.{◌≡◌, true, false, ◌≤◌, length, eqb, MatchOption};
ghost use Rattle.positions.specs.Rising.{rising};
ghost use Rattle.marking.specs.Sitting.{sum, sheets_of, all_rise};

// A key or a sheet that rises.
#[derive(Clone, Copy)]
pub(crate) struct Rising<'a> {
    pub list: &'a [u32],
    ghost rises: { rising list.now ≡ true },
}

impl<'a> Rising<'a> {
    pub(crate) fn judge(list: &'a [u32]) -> Option<Rising<'a>>
        ensures { MatchOption result (rising list.now ≡ false) (λ r. r.list.now ≡ list.now) }
    {
        if positions::rises(list) {
            Some(Rising { list })
        } else {
            None
        }
    }
}

// Whether the counts add up to the cells. What is left of the cells only falls, so no sum can wrap.
pub(crate) fn add_up(counts: &[u64], cells: usize) -> bool
    ensures { result ≡ eqb (sum counts.now) cells }
{
    let mut left = cells as u64;
    for &count in counts {
        if left < count {
            return false;
        }
        left -= count;
    }
    left == 0
}

// Whether each sheet rises by itself.
pub(crate) fn all_rise(sheets: &[u32], counts: &[u64]) -> bool
    requires { sum counts.now ≤ length sheets.now }
    ensures { result ≡ all_rise (sheets_of sheets.now counts.now) }
{
    let mut rest = sheets;
    for &count in counts {
        let (sheet, others) = rest.split_at(count as usize);
        if !positions::rises(sheet) {
            return false;
        }
        rest = others;
    }
    true
}
