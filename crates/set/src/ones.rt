// The bits of a word that are 1, lowest first.

// A word of flags: as an iterator, the numbers of those that are set.
#[derive(Drop)]
pub struct Ones(pub u64);

impl Iterator for Ones {
    ghost use Rattle.std.specs.Iterator.{YieldsFirst, item_count};
    ghost use Rattle.set.specs.Ones.{ones};

    type Item = u32;

    ghost next_gives = { YieldsFirst (λ s. ones s.0) };

    ghost remaining = { item_count (λ s. ones s.0) };

    fn next(&mut self) -> Option<u32> {
        if self.0 == 0 {
            return None;
        }
        let i = self.0.trailing_zeros();
        self.0 &= self.0 - 1;
        Some(i)
    }
}
