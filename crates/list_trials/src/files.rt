// The position list file: drawn lists there and back, and drawn and damaged bytes, against a naive writer and reader. A
// buffer has the library's target at its front and the naive writer's file from FILE on.
use crate::codec;
use crate::codec::FILE;
use draws::cells::{part, put, stay};
use draws::draw::{choose, draw, drawn_byte};
use draws::judged::{Judged, Refused};
use draws::number::Low;
use draws::{cells, packed};
use positions::{ReadRefusal, WriteRefusal};

// The bytes of a buffer.
pub(crate) const BYTES: usize = 813;

fn written_in(answer: Result<usize, WriteRefusal>) -> Result<usize, Refused> {
    answer.map_err(|why| Refused(why.number()))
}

fn read_in(answer: Result<usize, ReadRefusal>) -> Result<usize, Refused> {
    answer.map_err(|why| Refused(why.number()))
}

// Whether the target has the naive writer's bytes, so many, and the others as they were.
fn same_bytes(s: &[u8], count: usize, x: usize) -> bool {
    part(s, 0, count) == part(s, FILE, count)
        && (count..FILE).all(|i| cells::get(s, i) == drawn_byte(x, i))
}

// The file is read as the naive reader does, into cells that are enough or not; the cells after what was read stay, and a
// refusal leaves all of them.
pub(crate) fn read(file: &[u8], room: usize, x: usize, list: &mut [u32]) -> Judged<usize> {
    cells::fill(list, 0, x);
    let k = room.min(list.len());
    let answer = read_in(positions::read(file, &mut list[..k]));
    let good = match codec::decode(file, room, list) {
        Ok(read) => answer == Ok(read.count) && read.held && stay(list, read.count, x),
        Err(why) => answer == Err(why) && stay(list, 0, x),
    };
    Judged { good, answer }
}

// What was written is read back as the list.
fn back(file: &[u8], list: &[u32], x: usize) -> bool {
    let mut read_back = [0u32; 24];
    let got = read(file, 24, x, &mut read_back);
    let held = match codec::decode(file, 24, list) {
        Ok(read) => read.held && read.count == list.len(),
        Err(_) => false,
    };
    held && got.good && got.answer == Ok(list.len())
}

// A list is written as the naive writer does, into a target that is long enough or not; what lies after stays.
pub(crate) fn written(list: &[u32], room: usize, x: usize, s: &mut [u8]) -> Judged<usize> {
    let size = codec::encode(list, s);
    let k = room.min(s.len());
    let answer = written_in(positions::write(list, &mut s[..k]));
    let want = size.and_then(|n| if room < n { Err(Refused(9)) } else { Ok(n) });
    let count = want.unwrap_or(0);
    let good = written_in(positions::size(list)) == size
        && answer == want
        && same_bytes(s, count, x)
        && (count == 0 || back(part(s, 0, count), list, x));
    Judged { good, answer }
}

// Distances less 1 of every class, out of 16.
const DISTANCES: [(usize, usize); 7] = [
    (0, 1),
    (126, 4),
    (16382, 4),
    (2097150, 4),
    (268435454, 4),
    (0, 1073741824),
    (0, 300),
];

// Rising positions with drawn distances, of which the first k may be spoiled.
fn draw_list(list: &mut [u32; 24], k: usize, x: usize) {
    let mut p = draw(x, 30, 300);
    for (i, cell) in list.iter_mut().enumerate() {
        *cell = u32::low(p);
        let distance = choose(&DISTANCES, draw(x, i ^ 64, 16), x, i ^ 128);
        p = p.wrapping_add(1).wrapping_add(distance);
    }
    spoil(list, k, x);
}

// Spoils a list of k positions now and then, so that it may not rise: a position is the one before it, or about the limit.
pub(crate) fn spoil(list: &mut [u32], k: usize, x: usize) {
    let i = draw(x, 1, k);
    let class = draw(x, 2, 40);
    if class < 10 {
        put(list, i, cells::get(list, i.saturating_sub(draw(x, 3, 2))));
    }
    if class == 10 {
        put(list, i, u32::low(draw(x, 4, 4).wrapping_add(1073741822)));
    }
}

// The bytes that a file is damaged with.
const DAMAGE: [(usize, usize); 5] = [(0, 1), (128, 1), (255, 1), (127, 1), (0, 256)];

// What is added to a file's bytes, each with 3 added: mostly nothing, else some are cut off or left over.
const SIZES: [(usize, usize); 6] = [(3, 1), (3, 1), (3, 1), (0, 4), (3, 3), (3, 1)];

// Damages the file of so many bytes, or leaves it; the answer is its bytes then.
fn damaged(s: &mut [u8], size: usize, x: usize) -> usize {
    if draw(x, 8, 6) < 3 {
        let at = draw(x, 9, size).wrapping_add(FILE);
        put(s, at, u8::low(choose(&DAMAGE, draw(x, 10, 6), x, 11)));
    }
    let more = choose(&SIZES, draw(x, 18, 6), x, 12);
    size.wrapping_add(more).saturating_sub(3)
}

// Cells for what is read, too few or enough: up to 12 once in two draws, or 16 to 24.
const CELLS: [(usize, usize); 2] = [(0, 13), (16, 9)];

// The target of the list's file of so many bytes, out of four: any few bytes, about those that it needs, or many more.
fn target(size: Result<usize, Refused>, k: usize, x: usize) -> usize {
    match draw(x, 5, 4) {
        0 => draw(x, 6, k.wrapping_add(6)),
        1 => size.map_or(FILE, |n| about(n, x)),
        _ => FILE,
    }
}

// So many bytes, or up to two less or one more.
fn about(size: usize, x: usize) -> usize {
    size.wrapping_add(draw(x, 7, 4)).saturating_sub(2).min(FILE)
}

// A drawn list is written, over a buffer of drawn bytes.
pub(crate) fn drawn_written(x: usize) -> bool {
    let mut s = [0u8; BYTES];
    packed::fill(&mut s, x);
    let mut list = [0u32; 24];
    let k = draw(x, 0, 25);
    draw_list(&mut list, k, x);
    let drawn = part(&list, 0, k);
    let size = codec::encode(drawn, &mut s);
    written(drawn, target(size, k, x), x, &mut s).good
}

// A file is read, over a buffer of drawn bytes: that of a drawn list, damaged or not, or, once in three draws, a small count
// and drawn bytes.
pub(crate) fn drawn_read(x: usize) -> bool {
    let mut s = [0u8; BYTES];
    packed::fill(&mut s, x);
    let mut list = [0u32; 24];
    let k = draw(x, 0, 13);
    draw_list(&mut list, k, x);
    let size = draw_file(part(&list, 0, k), x, &mut s);
    let room = choose(&CELLS, draw(x, 16, 2), x, 17);
    read(part(&s, FILE, size), room, x, &mut list).good
}

// A drawn file at FILE, and its bytes. Of a list that is refused it is what was written before that, and drawn bytes.
fn draw_file(list: &[u32], x: usize, s: &mut [u8]) -> usize {
    if draw(x, 13, 3) == 0 {
        put(s, FILE, u8::low(draw(x, 14, 6)));
        return draw(x, 15, 16);
    }
    let size = codec::encode(list, s).unwrap_or(100).min(100);
    damaged(s, size, x)
}
