// The position list file: the byte count that a list needs, the writer and the reader.
ghost use Rattle.capi.specs.Told.{Tells};
ghost use Rattle.capi.specs.ListFile.{size_told, ListWritten, ListRead};

use crate::{ANSWER_CELLS_MISSING, cells};

// How many bytes the file of a list has.
#[unsafe(no_mangle)]
pub extern "C" fn mitongory_list_size(list: &[u32], answer: &mut [u64]) -> u32
    ensures { Tells (size_told list.now answer.old) answer.old result answer.new }
{
    if answer.len() < 1 {
        return ANSWER_CELLS_MISSING;
    }
    let needed = positions::size(list);
    match needed {
        Err(why) => why.number(),
        Ok(size) => cells::one(answer, size as u64),
    }
}

// Writes the file of a list to the front of the target.
#[unsafe(no_mangle)]
pub extern "C" fn mitongory_list_write(list: &[u32], target: &mut [u8], answer: &mut [u64]) -> u32
    ensures { ListWritten list.now target.old answer.old result target.new answer.new }
{
    if answer.len() < 1 {
        return ANSWER_CELLS_MISSING;
    }
    let written = positions::write(list, target);
    match written {
        Err(why) => why.number(),
        Ok(bytes) => cells::one(answer, bytes as u64),
    }
}

// Reads a file's positions into the front of the cells.
#[unsafe(no_mangle)]
pub extern "C" fn mitongory_list_read(file: &[u8], cells: &mut [u32], answer: &mut [u64]) -> u32
    ensures { ListRead file.now cells.old answer.old result cells.new answer.new }
{
    if answer.len() < 1 {
        return ANSWER_CELLS_MISSING;
    }
    let read = positions::read(file, cells);
    match read {
        Err(why) => why.number(),
        Ok(count) => cells::one(answer, count as u64),
    }
}
