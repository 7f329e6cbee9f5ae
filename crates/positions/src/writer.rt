// The writer of the position list file: one pass over the list judges it and counts the bytes, a second one stores them.
ghost use Rattle.std.specs.Prelude.{◌≡◌, true, ◌≤◌, length};
ghost use Rattle.std.proofs.lemmas.List.Edits.{sets};
ghost use Rattle.positions.specs.Rising.{rising};
ghost use Rattle.positions.specs.Encode.{encode};
ghost use Rattle.positions.specs.Promise.{size_gives, size_answer, Writes};

use crate::{LIMIT, WriteRefusal, number};

// How many bytes the file of a list has, or that the writer does not take it.
pub fn size(list: &[u32]) -> Result<usize, WriteRefusal>
    ensures { size_gives result ≡ size_answer list.now }
{
    let mut bytes: usize = 0;
    let mut next: u32 = 0;
    for &p in list {
        if p < next {
            return Err(WriteRefusal::ListNotRising);
        }
        if LIMIT <= p {
            return Err(WriteRefusal::ListNotRising);
        }
        bytes += number::size(p - next);
        next = p + 1;
    }
    Ok(bytes + number::size(list.len() as u32))
}

// Whether the positions rise strictly and are below 2^30. Where each is above the one before it, the last is the largest,
// so only that one is held to the limit. The loop has no early way out, so that several positions are compared at a time.
pub fn rises(list: &[u32]) -> bool
    ensures { result ≡ rising list.now }
{
    let Some((&first, others)) = list.split_first() else {
        return true;
    };
    let mut good = true;
    for (&p, &next) in list.iter().zip(others) {
        good = good & (p < next);
    }
    good & (*others.last().unwrap_or(&first) < LIMIT)
}

// Stores the file of a list that the writer takes into a target that has room for it.
fn store(list: &[u32], target: &mut [u8])
    requires list_rises { rising list.now ≡ true }
    requires file_fits { length (encode list.now) ≤ length target.old }
    ensures { target.new ≡ sets target.old 0 (encode list.now) }
{
    let mut at = number::put(target, 0, list.len() as u32);
    let mut next: u32 = 0;
    for &p in list {
        at = number::put(target, at, p - next);
        next = p + 1; // so a later number is the distance less 1
    }
}

// Writes the file of a list to the front of the target. What lies after it stays.
pub fn write(list: &[u32], target: &mut [u8]) -> Result<usize, WriteRefusal>
    ensures { Writes list.now target.old result target.new }
{
    let needed = size(list)?;
    if target.len() < needed {
        return Err(WriteRefusal::TargetTooShort);
    }
    store(list, target);
    Ok(needed)
}
