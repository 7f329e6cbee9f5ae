// Named sittings: no sheets, one, and as many as are taken; keys and sheets that agree, or not at all; each refusal, and
// each before the ones that come after it. Each is also compared with the naive marker.
use crate::marker::{Marks, Sitting};
use crate::sittings;
use crate::sittings::{add, put_picked};
use draws::cells::{get, part, put};
use draws::judged::Refused;
use draws::number::Low;

// How a sitting is spoiled.
#[derive(Clone, Copy, PartialEq, Eq)]
enum Spoil {
    // The second position of the key is its first again.
    Key,
    // The second position of the first sheet is its first again.
    Sheet,
    // The first count is one more.
    More,
    // Half of 2^64 is added to the first count and the last, so that the sum wraps.
    Wraps,
}

use Spoil::{Key, More, Sheet, Wraps};

// The first of 16 positions that follow each other; which of them the key picks, by a bit for each; how many sheets there
// are, and what the first and the last of them pick, the others being empty; how the sitting is spoiled; the cells of the
// report; and the totals, or the number of the refusal.
#[derive(Clone, Copy)]
struct Row(
    usize,
    usize,
    usize,
    usize,
    usize,
    &'static [Spoil],
    usize,
    Result<(usize, usize, usize), u32>,
);

const SITTINGS: [Row; 35] = [
    // no sheets, and a key that rises or not
    Row(0, 0xf, 0, 0, 0, &[], 0, Ok((0, 0, 0))),
    Row(0, 0xf, 0, 0, 0, &[], 5, Ok((0, 0, 0))),
    Row(0, 0xf, 0, 0, 0, &[Key], 0, Err(8)),
    // one sheet
    Row(0, 0x0, 1, 0x0, 0, &[], 3, Ok((0, 0, 0))),
    Row(0, 0x0, 1, 0xffff, 0, &[], 3, Ok((0, 0, 16))),
    Row(0, 0xf, 1, 0x0, 0, &[], 3, Ok((0, 4, 0))),
    Row(0, 0xf, 1, 0xf, 0, &[], 3, Ok((4, 0, 0))),
    Row(0, 0xf, 1, 0xf0, 0, &[], 3, Ok((0, 4, 4))),
    Row(0, 0xffff, 1, 0x5555, 0, &[], 3, Ok((8, 8, 0))),
    Row(0, 0xff, 1, 0x1fb, 0, &[], 3, Ok((7, 1, 1))),
    // a sheet rises by itself, whatever the one before it ends with
    Row(0, 0xf, 2, 0xf0, 0xf, &[], 6, Ok((4, 4, 4))),
    Row(0, 0xf, 2, 0xf, 0xf, &[], 9, Ok((8, 0, 0))),
    // as many as are taken, and one more
    Row(0, 0xf, 255, 0xf, 0x7, &[], 765, Ok((7, 1013, 0))),
    Row(0, 0xf, 256, 0xf, 0x7, &[], 768, Ok((7, 1017, 0))),
    Row(0, 0xf, 257, 0xf, 0x7, &[], 771, Err(15)),
    // the largest position, and 2^30
    Row(1073741808, 0x8000, 1, 0x8000, 0, &[], 3, Ok((1, 0, 0))),
    Row(1073741809, 0x8000, 1, 0x1, 0, &[], 3, Err(8)),
    Row(1073741809, 0x1, 1, 0x8000, 0, &[], 3, Err(8)),
    // each refusal
    Row(0, 0xf, 0, 0xf, 0, &[], 0, Err(16)),
    Row(0, 0xf, 1, 0xf, 0, &[More], 3, Err(16)),
    Row(0, 0xf, 2, 0xf, 0xf, &[Wraps], 6, Err(16)),
    Row(0, 0xf, 1, 0xf, 0, &[Key], 3, Err(8)),
    Row(0, 0xf, 1, 0xf, 0, &[Sheet], 3, Err(8)),
    Row(0, 0xf, 1, 0xf, 0, &[], 2, Err(9)),
    Row(0, 0xf, 255, 0xf, 0xf, &[], 764, Err(9)),
    Row(0, 0xf, 256, 0xf, 0xf, &[], 767, Err(9)),
    // each before those that come after it
    Row(0, 0xf, 257, 0xf, 0xf, &[More], 771, Err(15)),
    Row(0, 0xf, 257, 0xf, 0xf, &[Key], 771, Err(15)),
    Row(0, 0xf, 257, 0xf, 0xf, &[], 770, Err(15)),
    Row(0, 0xf, 2, 0xf, 0xf, &[More, Key], 6, Err(16)),
    Row(0, 0xf, 2, 0xf, 0xf, &[Wraps, Sheet], 6, Err(16)),
    Row(0, 0xf, 2, 0xf, 0xf, &[More], 5, Err(16)),
    Row(0, 0xf, 2, 0xf, 0xf, &[Key], 5, Err(8)),
    Row(0, 0xf, 2, 0xf, 0xf, &[Sheet], 5, Err(8)),
    Row(0, 0xf, 257, 0xf, 0xf, &[More, Key, Sheet], 0, Err(15)),
];

pub(crate) const CASES: usize = SITTINGS.len();

// 16 positions that follow each other.
fn follow(list: &mut [u32; 16], first: usize) {
    for (i, cell) in list.iter_mut().enumerate() {
        *cell = u32::low(first.wrapping_add(i));
    }
}

// The second cell becomes the first.
fn repeat(list: &mut [u32]) {
    put(list, 1, get(list, 0));
}

// A case of the table.
pub(crate) fn one(i: usize, x: usize) -> bool {
    let Some(&Row(first, picked, count, front, back, spoiled, room, wanted)) = SITTINGS.get(i)
    else {
        return false;
    };
    let mut from = [0u32; 16];
    let mut key = [0u32; 16];
    let mut sheets = [0u32; 32];
    let mut counts = [0u64; 257];
    let mut report = [0u32; 780];
    follow(&mut from, first);
    let k = put_picked(&mut key, 0, &from, picked);
    let middle = put_picked(&mut sheets, 0, &from, front);
    let end = put_picked(&mut sheets, middle, &from, back);
    add(&mut counts, 0, middle as u64);
    add(
        &mut counts,
        count.saturating_sub(1),
        end.saturating_sub(middle) as u64,
    );
    if spoiled.contains(&Key) {
        repeat(&mut key);
    }
    if spoiled.contains(&Sheet) {
        repeat(&mut sheets);
    }
    if spoiled.contains(&More) {
        add(&mut counts, 0, 1);
    }
    if spoiled.contains(&Wraps) {
        add(&mut counts, 0, 1 << 63);
        add(&mut counts, count.saturating_sub(1), 1 << 63);
    }
    let sitting = Sitting {
        key: part(&key, 0, k),
        sheets: part(&sheets, 0, end),
        counts: part(&counts, 0, count),
        room,
    };
    let got = sittings::marked(sitting, x, &mut report);
    got.good
        && match wanted {
            Ok((right, missed, false_positives)) => {
                got.answer
                    == Ok(Marks {
                        right,
                        missed,
                        false_positives,
                    })
            }
            Err(why) => got.answer == Err(Refused(why)),
        }
}
