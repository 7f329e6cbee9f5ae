// How many positions two rising lists share. The two are walked together, as in a merge: the lower of the next two
// positions is passed, and where they are equal both are. No step branches on their order, which cannot be predicted where
// the lists differ. Where they agree, which is most of a good sheet, eight positions are compared at a time.
ghost use Rattle.std.specs.Prelude.{◌≡◌, true, ◌+◌, ◌≤◌, ◌<◌, length, take, drop};
ghost use Rattle.marking.specs.Marks.{both};
ghost use Rattle.marking.specs.Inner.{EightSame};

use crate::judge::Rising;

// How many steps are made where eight positions are not the same: few at first, since a good sheet soon agrees again, and
// many where that did not help.
const FEW: usize = 8;

const MANY: usize = 16;

// The indices that a merge has reached in its two lists, how many shared positions it has passed, and how many steps to make
// next. What is counted, with what the lists share from the indices on, is what they share in all. With what is left of each
// list in place of the indices, good sheets took a tenth longer.
#[derive(Clone, Copy)]
struct Merge<'a> {
    key: Rising<'a>,
    sheet: Rising<'a>,
    i: usize,
    j: usize,
    found: usize,
    count: usize,
    ghost in_key: { i ≤ length key.list.now },
    ghost in_sheet: { j ≤ length sheet.list.now },
    ghost some_steps: { 0 < count },
    ghost few: { found ≤ i },
    ghost counted: { found + length (both (drop i key.list.now) (drop j sheet.list.now)) ≡ length (both key.list.now sheet.list.now) },
}

impl<'a> Merge<'a> {
    // Whether the next eight positions are there and are the same. The loop never ends early, so that it becomes two wide
    // comparisons; `==` of two slices or arrays takes longer.
    fn eight_same(&self) -> bool
        ensures { result ≡ true → EightSame self.now.key.list.now self.now.sheet.list.now self.now.i self.now.j }
    {
        let (key, sheet) = (self.key.list, self.sheet.list);
        if (key.len() < self.i + 8) | (sheet.len() < self.j + 8) {
            return false;
        }
        let mut same = true;
        for k in 0..8 {
            same = same & (key[self.i + k] == sheet[self.j + k]);
        }
        same
    }

    // Makes so many steps, or fewer to the end of a list. A step passes one position, or two where they are equal, so what was
    // passed beyond one a step is in both lists. An index goes on by 1 less a strict comparison, which compiles to a
    // subtraction with borrow: the shortest way from one pair of positions to the next. No iterator goes on in one list, or in
    // the other, or in both.
    fn steps(&mut self)
        requires in_key { self.old.i < length self.old.key.list.now }
        requires in_sheet { self.old.j < length self.old.sheet.list.now }
        ensures same_lists { (self.new.key ≡ self.old.key) × (self.new.sheet ≡ self.old.sheet) }
        ensures onward { self.old.i + self.old.j < self.new.i + self.new.j }
    {
        let (key, sheet) = (self.key.list, self.sheet.list);
        let mut x = self.i;
        let mut y = self.j;
        let mut step: usize = 0;
        while (step < self.count) & (x < key.len()) & (y < sheet.len()) {
            let a = key[x];
            let b = sheet[y];
            x = x + 1 - (b < a) as usize;
            y = y + 1 - (a < b) as usize;
            step += 1;
        }
        self.found += x - self.i - (step - (y - self.j));
        self.i = x;
        self.j = y;
        self.count = MANY;
    }

    // Passes eight positions that are the same in both lists, or makes steps.
    fn pass(&mut self)
        requires in_key { self.old.i < length self.old.key.list.now }
        requires in_sheet { self.old.j < length self.old.sheet.list.now }
        ensures same_lists { (self.new.key ≡ self.old.key) × (self.new.sheet ≡ self.old.sheet) }
        ensures onward { self.old.i + self.old.j < self.new.i + self.new.j }
    {
        if self.eight_same() {
            self.i += 8;
            self.j += 8;
            self.found += 8;
            self.count = FEW;
        } else {
            self.steps();
        }
    }
}

// How many positions of the key are on the sheet.
pub(crate) fn right(key: Rising, sheet: Rising) -> usize
    ensures { result ≡ length (both key.entry.list.now sheet.entry.list.now) }
{
    let mut merge = Merge {
        key,
        sheet,
        i: 0,
        j: 0,
        found: 0,
        count: FEW,
    };
    while (merge.i < key.list.len()) & (merge.j < sheet.list.len()) {
        merge.pass();
    }
    merge.found
}
