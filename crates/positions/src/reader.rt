// The reader of the position list file. One pass over the bytes judges the whole file, with no regard to the cells, so that a
// bad file gets its own fault however few cells there are. Only for a good one are the cells counted, and a second pass
// stores the positions. So no byte is read more than twice, and a refusal leaves every cell as it was.
ghost use Rattle.std.specs.Prelude.{◌≡◌, true, ◌≤◌, length, drop};
ghost use Rattle.std.proofs.lemmas.List.Edits.{sets};
ghost use Rattle.positions.specs.Basics.{limit};
ghost use Rattle.positions.specs.Decode.{read_position, read_body};
ghost use Rattle.positions.specs.Promise.{Reads};
ghost use Rattle.positions.specs.Inner.{reading_in, end_in, rest_of, accepts, positions_of};

use crate::{LIMIT, ReadRefusal, number};

// The position that a file's bytes go on with, where `next` is the least that may come, and the bytes after it.
fn position(file: &[u8], next: u32) -> Result<(u32, &[u8]), ReadRefusal>
    requires { next ≤ limit }
    ensures { reading_in result ≡ read_position next file.now }
{
    let (n, rest) = number::read(file)?;
    let p = next + n;
    if p < LIMIT {
        Ok((p, rest))
    } else {
        Err(ReadRefusal::NumberTooLarge)
    }
}

// Judges so many positions, and stores nothing: the bytes after the last one, or the first fault. Each round takes a byte or
// more, so the loop ends at the latest where the file does, whatever the count claims: its measure is the bytes that are left,
// and not how many rounds a `for` still has.
fn judge(body: &[u8], count: usize) -> Result<&[u8], ReadRefusal>
    ensures { end_in result ≡ rest_of (read_body count 0 body.now) }
{
    let mut rest = body;
    let mut next: u32 = 0;
    let mut left = count;
    while 0 < left {
        let (p, after) = position(rest, next)?;
        next = p + 1;
        rest = after;
        left -= 1;
    }
    Ok(rest)
}

// Stores the positions of a body that was judged good, one to a cell. So each number has a byte, and no position is held to the
// limit again.
fn store(body: &[u8], cells: &mut [u32])
    requires { accepts (read_body (length cells.old) 0 body.now) ≡ true }
    ensures { cells.new ≡ positions_of (read_body (length cells.old) 0 body.now) }
{
    let mut rest = body;
    let mut next: u32 = 0;
    for cell in cells.iter_mut() {
        let (n, after) = number::read_here(rest).unwrap();
        let p = next + n;
        *cell = p;
        next = p + 1;
        rest = after;
    }
}

// Reads a file's positions into the front of the cells. The cells after them stay.
pub fn read(file: &[u8], cells: &mut [u32]) -> Result<usize, ReadRefusal>
    ensures { Reads file.now cells.old result cells.new }
{
    let (count, body) = number::read(file)?;
    let needed = count as usize;
    let left = judge(body, needed)?;
    if !left.is_empty() {
        return Err(ReadRefusal::BytesLeftOver);
    }
    if cells.len() < needed {
        return Err(ReadRefusal::CellsMissing);
    }
    store(body, &mut cells[..needed]);
    Ok(needed)
}
