// Eight bits from a bit number, by themselves.
ghost use Rattle.capi.specs.Told.{Tells};
ghost use Rattle.capi.specs.EightBits.{eight_told};

use crate::{ANSWER_CELLS_MISSING, cells};
use bits::Place;

// The eight bits from a bit number on, of the first n bits, as a byte with the first bit leftmost, and how many of them lie
// before n; the others are 0.
#[unsafe(no_mangle)]
pub extern "C" fn mitongory_eight_bits(bytes: &[u8], n: u64, place: u32, answer: &mut [u64]) -> u32
    ensures { Tells (eight_told bytes.now n place answer.old) answer.old result answer.new }
{
    if answer.len() < 2 {
        return ANSWER_CELLS_MISSING;
    }
    let found = eight::eight_bits(bytes, n, Place(place));
    match found {
        Err(why) => why.number(),
        Ok(s) => cells::two(answer, s.byte as u64, s.count as u64),
    }
}
