// Named cases: the course's papers of the position list file, and the examples of rows 8 to 14 of the table of refusals, in
// document 01, and those of document 02, A6. Each is also compared with the naive side.
use crate::codec::FILE;
use crate::files;
use crate::files::BYTES;
use draws::cells::{listed, part};
use draws::judged::Refused;
use draws::number::Low;
use draws::packed;
use draws::packed::{agree, put_digits};

// A list by its first position, how far apart the others are and their count; the bytes of the target, which are the cells
// too, and what is written; a file and its bytes, and what is read. A refusal stands by its number.
#[derive(Clone, Copy)]
struct Row(
    usize,
    usize,
    usize,
    usize,
    Result<usize, u32>,
    usize,
    usize,
    Result<usize, u32>,
);

// The papers of the position list file, and the examples of rows 8 to 14. A row about a list has an empty list's file beside
// it, and a row about a file has an empty list; the first rows are about both, and the file is the list's.
const LISTS: [Row; 20] = [
    Row(0, 6, 3, 8, Ok(4), 0x03000505, 4, Ok(3)),
    Row(300, 0, 1, 8, Ok(3), 0x01ac02, 3, Ok(1)),
    Row(0, 0, 0, 8, Ok(1), 0x00, 1, Ok(0)),
    Row(6, 0, 2, 8, Err(8), 0x00, 1, Ok(0)),
    Row(1073741824, 0, 1, 8, Err(8), 0x00, 1, Ok(0)),
    Row(300, 0, 1, 2, Err(9), 0x00, 1, Ok(0)),
    Row(0, 0, 0, 1, Ok(1), 0x01, 1, Err(10)),
    Row(0, 0, 0, 1, Ok(1), 0x018000, 3, Err(11)),
    Row(0, 0, 0, 1, Ok(1), 0x018080808004, 6, Err(12)),
    Row(0, 0, 0, 1, Ok(1), 0x0000, 2, Err(13)),
    Row(0, 0, 0, 0, Err(9), 0x0105, 2, Err(14)),
    // Document 02, A6: a bad file with fewer cells than its count, and the last a sound one.
    Row(0, 0, 0, 0, Err(9), 0x0205, 2, Err(10)),
    Row(0, 0, 0, 1, Ok(1), 0x0205, 2, Err(10)),
    Row(0, 0, 0, 0, Err(9), 0x808080800400, 6, Err(10)),
    Row(0, 0, 0, 1, Ok(1), 0x02058000, 4, Err(11)),
    Row(0, 0, 0, 1, Ok(1), 0x028180808004, 6, Err(12)),
    Row(0, 0, 0, 1, Ok(1), 0x02ffffffff0300, 7, Err(12)),
    Row(0, 0, 0, 0, Err(9), 0x010500, 3, Err(13)),
    Row(0, 0, 0, 1, Ok(1), 0x02050500, 4, Err(13)),
    Row(0, 0, 0, 1, Ok(1), 0x020505, 3, Err(14)),
];

pub(crate) const CASES: usize = LISTS.len();

// How many rows are about a list and its file.
const PAPERS: usize = 3;

// The cells first, first + apart, first + 2 apart and so on.
fn rise(list: &mut [u32], first: usize, apart: usize) {
    for (i, cell) in list.iter_mut().enumerate() {
        *cell = u32::low(first.wrapping_add(i.wrapping_mul(apart)));
    }
}

// A case of the position list file.
pub(crate) fn one(i: usize, x: usize) -> bool {
    let Some(&Row(first, apart, count, room, wants, digits, bytes, wanted)) = LISTS.get(i) else {
        return false;
    };
    let mut s = [0u8; BYTES];
    packed::fill(&mut s, x);
    let mut list = [0u32; 24];
    rise(&mut list, first, apart);
    let written = files::written(part(&list, 0, count), room, x, &mut s);
    // the naive file, which the library's was compared with
    put_digits(&mut s, 0, digits, 8 * bytes);
    let same = agree(&s, 0, FILE * 8, 8 * bytes);
    let read = files::read(part(&s, 0, bytes), room, x, &mut list);
    written.good
        && written.answer == wants.map_err(Refused)
        && read.good
        && read.answer == wanted.map_err(Refused)
        && (PAPERS <= i || (same && listed(&list, count, first, apart)))
}
