// One step: which patterns stand at a place, and their pairs written.
ghost use Rattle.std.specs.Prelude.{◌≡◌, ◌*◌, ◌≤◌, length};
ghost use Rattle.set.specs.Parts.{PairsWritten};

use crate::finder::Finder;
use crate::ones::Ones;
use bits::Place;
use matcher::query::{Pattern, Query};

// Writes the pairs of a place: the place and each number.
pub fn write(list: &mut [u32], p: Place, numbers: &[u32])
    requires { 2 * length numbers.now ≤ length list.old }
    ensures { PairsWritten list.old 0 p.0 numbers.now list.new }
{
    let s = p.0;
    for (j, &i) in numbers.iter().enumerate() {
        list[2 * j] = s;
        list[2 * j + 1] = i;
    }
}

impl<'a> Finder<'a> {
    ghost use Rattle.std.specs.Int.Bits.{bit_and};
    ghost use Rattle.std.specs.Prelude.{◌≡◌, true, ◌^◌, ◌≤◌, ◌<◌, length};
    ghost use Rattle.bits.specs.Packed.{bits_at};
    ghost use Rattle.rules.specs.Occurrence.{occurs};
    ghost use Rattle.matcher.specs.Progress.{Writing};
    ghost use Rattle.set_rules.specs.PatternSet.{pattern_at};
    ghost use Rattle.set_rules.specs.Hits.{standing};
    ghost use Rattle.set_tables.specs.Fronts.{begins, Flags};
    ghost use Rattle.set.specs.Parts.{text_in, set_in};

    // Whether pattern i stands at p, where its first 32 bits agree with the text: it has to fit, and the bits after them to
    // agree.
    fn stands(&self, i: usize, p: Place) -> bool
        requires known { i < length self.now.patterns.counts.now }
        requires begins_there { (p.0 ≤ 2 ^ 30) × (begins (pattern_at (set_in self.now) i) 0 32 (bits_at self.now.text.now p.0 32) ≡ true) }
        ensures { result ≡ occurs (text_in self.now) (pattern_at (set_in self.now) i) p.0 }
    {
        let at = p.0;
        let m = self.patterns.counts[i] as u32;
        if self.n < at + m {
            return false;
        }
        if m <= 32 {
            return true;
        }
        let start = self.rows[i] as usize;
        let query = Query {
            text: self.text,
            n: self.n,
            pattern: Pattern {
                bytes: &self.patterns.bytes[start..],
                fixed: &self.patterns.fixed[start..],
                m,
            },
            head: self.rows[64 + i],
            mask: self.rows[128 + i],
        };
        query.same(p)
    }

    // Whether each of the patterns with these flags fits at p and has no more bits than the tables compare.
    fn all_stand(&self, p: Place, flags: u64) -> bool
        ensures { result ≡ true → (p.0 < self.now.sure.until) × (bit_and flags self.now.sure.long ≡ 0) }
    {
        p.0 < self.sure.until && flags & self.sure.long == 0
    }

    // The numbers of the patterns that stand at p, into the front of `numbers`, and how many they are. The flags are those of
    // the patterns whose first 32 bits agree with the text there; where each of these fits and has no more bits, they all
    // stand.
    pub fn find(&self, p: Place, flags: u64, numbers: &mut [u32]) -> usize
        requires numbers_there { 64 ≤ length numbers.old }
        requires flags { Flags (set_in self.now) (length self.now.patterns.counts.now) (λ w. begins w 0 32 (bits_at self.now.text.now p.0 32)) flags }
        requires p_bound { p.0 ≤ 2 ^ 30 }
        ensures { Writing numbers.old 0 (standing (text_in self.now) (set_in self.now) p.0) numbers.new result }
    {
        let all = self.all_stand(p, flags);
        let mut count = 0usize;
        for i in Ones(flags) {
            if all || self.stands(i as usize, p) {
                numbers[count] = i;
                count += 1;
            }
        }
        count
    }
}
