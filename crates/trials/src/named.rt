// Named cases: the course's papers, what students write, and the examples of rows 1 to 7 of the table of refusals, in
// document 01; and by the rules of document 02 tail on the same pairs and one more, the steps that a full list cuts, the
// figures of the scratch, patterns with wild bits, and row 17. Each is also compared with the naive side.
use crate::call::{ALL, Call};
use crate::calls::joined;
use crate::drawn::CELLS;
use crate::run::{Run, Stop};
use crate::{call, naive, single};
use draws::cells::part;
use draws::judged::Refused;
use draws::packed::{BYTES, FIXED, TEXT, TEXT_BIT, put_digits};
use search::Method;

// A text and a pattern, each by its digits and its bits, the pattern's second run, 1 for fixed and 0 for wild, and the
// occurrences.
#[derive(Clone, Copy)]
struct Pair(usize, usize, usize, usize, usize, &'static [u32]);

// A second run of fixed bits only.
const FULL: usize = usize::MAX;

const PAIRS: [Pair; 18] = [
    // R1 and V1
    Pair(
        0b011001001000100110100101000101001001,
        36,
        0b0100110100,
        10,
        FULL,
        &[11],
    ),
    // R2 and V2
    Pair(
        0b110010110010110010110010110010110,
        33,
        0b110010110010110010110,
        21,
        FULL,
        &[0, 6, 12],
    ),
    // the pattern 111 in 11111
    Pair(0b11111, 5, 0b111, 3, FULL, &[0, 1, 2]),
    // n = 0, and 200 zero bits, with the pattern 1
    Pair(0, 0, 0b1, 1, FULL, &[]),
    Pair(0, 200, 0b1, 1, FULL, &[]),
    // occurrences that would use the zeros after the last bit
    Pair(0b0110, 4, 0b1000, 4, FULL, &[]),
    Pair(0b00000000000000000001, 20, 0b100000000000000, 15, FULL, &[]),
    // a place at a whole byte, for which some take a row 8
    Pair(0b000000001011, 12, 0b1011, 4, FULL, &[8]),
    Pair(0b00000000000000001011, 20, 0b1011, 4, FULL, &[16]),
    // a window, 1001, that ends with 001, the pattern's first bits, with which the pattern itself does not end
    Pair(0b10010011, 8, 0b0011, 4, FULL, &[4]),
    // R1 and V1 with a wild field in the middle, at the beginning and at the end. In the first one hash reads at place
    // 17 the value 00101000, which agrees with the last eight bits and is not 00110100, and moves by 5 to the next
    // occurrence; after 00110100 it moves by 6.
    Pair(
        0b011001001000100110100101000101001001,
        36,
        0b0100110100,
        10,
        0b1111000011,
        &[11, 17, 22],
    ),
    Pair(
        0b011001001000100110100101000101001001,
        36,
        0b0100110100,
        10,
        0b0000111111,
        &[11],
    ),
    Pair(
        0b011001001000100110100101000101001001,
        36,
        0b0100110100,
        10,
        0b1111110000,
        &[11],
    ),
    // R2 and V2 with a wild field
    Pair(
        0b110010110010110010110010110010110,
        33,
        0b110010110010110010110,
        21,
        0b111111000011111111111,
        &[0, 6, 12],
    ),
    // the text's second byte, 11111111, is shown from index 0 on, and from index 1 on through the wild bit 8
    Pair(
        0b000000011111111100000000,
        24,
        0b111111110000000,
        15,
        0b111111110111111,
        &[7, 8],
    ),
    // 200 zero bits: the wide move goes by the wild bit 1, since no other bit agrees with 0
    Pair(0, 200, 0b1111, 4, 0b1011, &[]),
    // all bits wild: every place, of the first 26 bits of R2
    Pair(
        0b11001011001011001011001011,
        26,
        0b110010110010110010110,
        21,
        0,
        &[0, 1, 2, 3, 4, 5],
    ),
    // all bits wild and longer than the text
    Pair(0b110010, 6, 0b1100101, 7, 0, &[]),
];

// A search: the pair, the method, the budget and the cells; then the steps, the occurrences written, the mark, and how it
// stops.
#[derive(Clone, Copy)]
struct Search(usize, Method, usize, usize, usize, usize, usize, Stop);

const SEARCHES: [Search; 149] = [
    // the papers with whole answers
    Search(0, Method::Plain, ALL, 3, 27, 1, 27, Stop::Done),
    Search(0, Method::Hash, ALL, 3, 5, 1, 27, Stop::Done),
    Search(0, Method::Wide, ALL, 3, 1, 1, 27, Stop::Done),
    Search(0, Method::Tail, ALL, 3, 5, 1, 27, Stop::Done),
    Search(1, Method::Plain, ALL, 4, 13, 3, 13, Stop::Done),
    Search(1, Method::Hash, ALL, 4, 3, 3, 13, Stop::Done),
    Search(1, Method::Skip, ALL, 4, 2, 3, 13, Stop::Done),
    Search(1, Method::Wide, ALL, 4, 1, 3, 13, Stop::Done),
    Search(1, Method::Tail, ALL, 4, 3, 3, 13, Stop::Done),
    Search(3, Method::Plain, ALL, 1, 0, 0, 0, Stop::Done),
    Search(3, Method::Wide, ALL, 1, 0, 0, 0, Stop::Done),
    Search(3, Method::Tail, ALL, 1, 0, 0, 0, Stop::Done),
    Search(2, Method::Plain, ALL, 3, 3, 3, 3, Stop::Done),
    Search(2, Method::Wide, ALL, 3, 1, 3, 3, Stop::Done),
    Search(2, Method::Tail, ALL, 3, 3, 3, 3, Stop::Done),
    Search(9, Method::Tail, ALL, 3, 3, 1, 5, Stop::Done),
    // the papers with marks, by the budget
    Search(0, Method::Hash, 1, 3, 1, 0, 7, Stop::Spent),
    Search(0, Method::Hash, 2, 3, 2, 0, 11, Stop::Spent),
    Search(0, Method::Hash, 3, 3, 3, 1, 17, Stop::Spent),
    Search(0, Method::Hash, 4, 3, 4, 1, 26, Stop::Spent),
    Search(1, Method::Skip, 1, 4, 1, 2, 9, Stop::Spent),
    Search(4, Method::Wide, 1, 1, 1, 0, 65, Stop::Spent),
    Search(4, Method::Wide, 2, 1, 2, 0, 130, Stop::Spent),
    Search(4, Method::Wide, 3, 1, 3, 0, 195, Stop::Spent),
    Search(4, Method::Wide, ALL, 1, 4, 0, 200, Stop::Done),
    Search(0, Method::Tail, 1, 3, 1, 0, 7, Stop::Spent),
    Search(0, Method::Tail, 2, 3, 2, 0, 11, Stop::Spent),
    Search(0, Method::Tail, 3, 3, 3, 1, 17, Stop::Spent),
    Search(0, Method::Tail, 4, 3, 4, 1, 26, Stop::Spent),
    Search(1, Method::Tail, 1, 4, 1, 1, 6, Stop::Spent),
    Search(1, Method::Tail, 2, 4, 2, 2, 12, Stop::Spent),
    Search(2, Method::Tail, 1, 3, 1, 1, 1, Stop::Spent),
    Search(2, Method::Tail, 2, 3, 2, 2, 2, Stop::Spent),
    Search(9, Method::Tail, 1, 3, 1, 0, 1, Stop::Spent),
    Search(9, Method::Tail, 2, 3, 2, 0, 4, Stop::Spent),
    Search(4, Method::Tail, ALL, 1, 200, 0, 200, Stop::Done),
    // one cell: the step that the full list cuts is not counted
    Search(1, Method::Plain, ALL, 1, 6, 1, 6, Stop::Full(6)),
    Search(1, Method::Hash, ALL, 1, 1, 1, 6, Stop::Full(6)),
    Search(1, Method::Skip, ALL, 1, 0, 1, 6, Stop::Full(6)),
    Search(1, Method::Wide, ALL, 1, 0, 1, 6, Stop::Full(6)),
    Search(1, Method::Tail, ALL, 1, 1, 1, 6, Stop::Full(6)),
    // nor does it use up the budget: it is tried while a step is left, and not after that
    Search(1, Method::Plain, 6, 1, 6, 1, 6, Stop::Spent),
    Search(1, Method::Plain, 7, 1, 6, 1, 6, Stop::Full(6)),
    Search(1, Method::Hash, 1, 1, 1, 1, 6, Stop::Spent),
    Search(1, Method::Hash, 2, 1, 1, 1, 6, Stop::Full(6)),
    Search(1, Method::Skip, 1, 1, 0, 1, 6, Stop::Full(6)),
    Search(1, Method::Wide, 1, 1, 0, 1, 6, Stop::Full(6)),
    Search(1, Method::Tail, 1, 1, 1, 1, 6, Stop::Spent),
    Search(1, Method::Tail, 2, 1, 1, 1, 6, Stop::Full(6)),
    // no cell: no step is made, and the mark stays
    Search(1, Method::Plain, ALL, 0, 0, 0, 0, Stop::Full(0)),
    Search(1, Method::Hash, ALL, 0, 0, 0, 0, Stop::Full(0)),
    Search(1, Method::Skip, ALL, 0, 0, 0, 0, Stop::Full(0)),
    Search(1, Method::Wide, ALL, 0, 0, 0, 0, Stop::Full(0)),
    Search(1, Method::Tail, ALL, 0, 0, 0, 0, Stop::Full(0)),
    Search(1, Method::Wide, 0, 0, 0, 0, 0, Stop::Spent),
    // what students write: padding, a row 8, and a full list where no further occurrence exists (moving by m after a hash
    // hit, and giving the place's last bit, are ruled out by the papers above)
    Search(5, Method::Plain, ALL, 2, 1, 0, 1, Stop::Done),
    Search(5, Method::Wide, ALL, 2, 1, 0, 1, Stop::Done),
    Search(5, Method::Tail, ALL, 2, 1, 0, 1, Stop::Done),
    Search(6, Method::Hash, ALL, 2, 6, 0, 6, Stop::Done),
    Search(6, Method::Skip, ALL, 2, 2, 0, 6, Stop::Done),
    Search(6, Method::Tail, ALL, 2, 1, 0, 6, Stop::Done),
    Search(7, Method::Plain, ALL, 2, 9, 1, 9, Stop::Done),
    Search(8, Method::Plain, ALL, 2, 17, 1, 17, Stop::Done),
    Search(7, Method::Tail, ALL, 2, 3, 1, 9, Stop::Done),
    Search(8, Method::Tail, ALL, 2, 5, 1, 17, Stop::Done),
    Search(1, Method::Plain, ALL, 3, 13, 3, 13, Stop::Done),
    Search(1, Method::Hash, ALL, 3, 3, 3, 13, Stop::Done),
    Search(1, Method::Skip, ALL, 3, 2, 3, 13, Stop::Done),
    Search(1, Method::Wide, ALL, 3, 1, 3, 13, Stop::Done),
    Search(1, Method::Tail, ALL, 3, 3, 3, 13, Stop::Done),
    Search(1, Method::Plain, ALL, 2, 12, 2, 12, Stop::Full(12)),
    Search(1, Method::Hash, ALL, 2, 2, 2, 12, Stop::Full(12)),
    Search(1, Method::Tail, ALL, 2, 2, 2, 12, Stop::Full(12)),
    // R1 and V1 with a wild field: whole answers, and marks by the budget
    Search(10, Method::Plain, ALL, 3, 27, 3, 27, Stop::Done),
    Search(10, Method::Hash, ALL, 3, 7, 3, 27, Stop::Done),
    Search(10, Method::Wide, ALL, 3, 1, 3, 27, Stop::Done),
    Search(10, Method::Tail, ALL, 3, 6, 3, 27, Stop::Done),
    Search(11, Method::Plain, ALL, 3, 27, 1, 27, Stop::Done),
    Search(11, Method::Hash, ALL, 3, 5, 1, 27, Stop::Done),
    Search(11, Method::Wide, ALL, 3, 1, 1, 27, Stop::Done),
    Search(11, Method::Tail, ALL, 3, 5, 1, 27, Stop::Done),
    Search(12, Method::Plain, ALL, 3, 27, 1, 27, Stop::Done),
    Search(12, Method::Hash, ALL, 3, 5, 1, 27, Stop::Done),
    Search(12, Method::Wide, ALL, 3, 1, 1, 27, Stop::Done),
    Search(12, Method::Tail, ALL, 3, 5, 1, 27, Stop::Done),
    Search(10, Method::Hash, 1, 3, 1, 0, 1, Stop::Spent),
    Search(10, Method::Hash, 2, 3, 2, 0, 4, Stop::Spent),
    Search(10, Method::Hash, 3, 3, 3, 0, 7, Stop::Spent),
    Search(10, Method::Hash, 4, 3, 4, 0, 11, Stop::Spent),
    Search(10, Method::Hash, 5, 3, 5, 1, 17, Stop::Spent),
    Search(10, Method::Hash, 6, 3, 6, 2, 22, Stop::Spent),
    Search(10, Method::Tail, 1, 3, 1, 0, 4, Stop::Spent),
    Search(10, Method::Tail, 2, 3, 2, 0, 7, Stop::Spent),
    Search(10, Method::Tail, 3, 3, 3, 0, 11, Stop::Spent),
    Search(10, Method::Tail, 4, 3, 4, 1, 17, Stop::Spent),
    Search(10, Method::Tail, 5, 3, 5, 2, 22, Stop::Spent),
    // with one cell and with two, and with none
    Search(10, Method::Plain, ALL, 1, 17, 1, 17, Stop::Full(17)),
    Search(10, Method::Hash, ALL, 1, 5, 1, 17, Stop::Full(17)),
    Search(10, Method::Wide, ALL, 1, 0, 1, 17, Stop::Full(17)),
    Search(10, Method::Tail, ALL, 1, 4, 1, 17, Stop::Full(17)),
    Search(10, Method::Plain, ALL, 2, 22, 2, 22, Stop::Full(22)),
    Search(10, Method::Hash, ALL, 2, 6, 2, 22, Stop::Full(22)),
    Search(10, Method::Wide, ALL, 2, 0, 2, 22, Stop::Full(22)),
    Search(10, Method::Tail, ALL, 2, 5, 2, 22, Stop::Full(22)),
    Search(10, Method::Plain, ALL, 0, 11, 0, 11, Stop::Full(11)),
    Search(10, Method::Hash, ALL, 0, 4, 0, 11, Stop::Full(11)),
    Search(10, Method::Wide, ALL, 0, 0, 0, 11, Stop::Full(11)),
    Search(10, Method::Tail, ALL, 0, 3, 0, 11, Stop::Full(11)),
    // R2 and V2 with a wild field, and a byte that is shown by two indices, also with one cell
    Search(13, Method::Plain, ALL, 4, 13, 3, 13, Stop::Done),
    Search(13, Method::Hash, ALL, 4, 3, 3, 13, Stop::Done),
    Search(13, Method::Skip, ALL, 4, 2, 3, 13, Stop::Done),
    Search(13, Method::Wide, ALL, 4, 1, 3, 13, Stop::Done),
    Search(13, Method::Tail, ALL, 4, 3, 3, 13, Stop::Done),
    Search(14, Method::Plain, ALL, 2, 10, 2, 10, Stop::Done),
    Search(14, Method::Hash, ALL, 2, 4, 2, 10, Stop::Done),
    Search(14, Method::Skip, ALL, 2, 3, 2, 10, Stop::Done),
    Search(14, Method::Wide, ALL, 2, 1, 2, 10, Stop::Done),
    Search(14, Method::Tail, ALL, 2, 3, 2, 10, Stop::Done),
    Search(13, Method::Skip, 1, 4, 1, 2, 9, Stop::Spent),
    Search(14, Method::Skip, 1, 2, 1, 0, 1, Stop::Spent),
    Search(14, Method::Skip, 2, 2, 2, 2, 9, Stop::Spent),
    Search(14, Method::Plain, ALL, 1, 8, 1, 8, Stop::Full(8)),
    Search(14, Method::Hash, ALL, 1, 3, 1, 8, Stop::Full(8)),
    Search(14, Method::Skip, ALL, 1, 1, 1, 8, Stop::Full(8)),
    Search(14, Method::Wide, ALL, 1, 0, 1, 8, Stop::Full(8)),
    Search(14, Method::Tail, ALL, 1, 2, 1, 8, Stop::Full(8)),
    // wide moves that a wild bit decides
    Search(15, Method::Wide, 1, 1, 1, 0, 66, Stop::Spent),
    Search(15, Method::Wide, 2, 1, 2, 0, 132, Stop::Spent),
    Search(15, Method::Wide, ALL, 1, 3, 0, 197, Stop::Done),
    Search(15, Method::Plain, ALL, 1, 197, 0, 197, Stop::Done),
    Search(15, Method::Tail, ALL, 1, 50, 0, 197, Stop::Done),
    // all bits wild
    Search(16, Method::Plain, ALL, 7, 6, 6, 6, Stop::Done),
    Search(16, Method::Hash, ALL, 7, 6, 6, 6, Stop::Done),
    Search(16, Method::Skip, ALL, 7, 1, 6, 6, Stop::Done),
    Search(16, Method::Wide, ALL, 7, 1, 6, 6, Stop::Done),
    Search(16, Method::Tail, ALL, 7, 6, 6, 6, Stop::Done),
    Search(16, Method::Plain, 3, 7, 3, 3, 3, Stop::Spent),
    Search(16, Method::Hash, 3, 7, 3, 3, 3, Stop::Spent),
    Search(16, Method::Skip, 3, 7, 1, 6, 6, Stop::Done),
    Search(16, Method::Wide, 3, 7, 1, 6, 6, Stop::Done),
    Search(16, Method::Tail, 3, 7, 3, 3, 3, Stop::Spent),
    Search(16, Method::Plain, ALL, 4, 4, 4, 4, Stop::Full(4)),
    Search(16, Method::Hash, ALL, 4, 4, 4, 4, Stop::Full(4)),
    Search(16, Method::Skip, ALL, 4, 0, 4, 4, Stop::Full(4)),
    Search(16, Method::Wide, ALL, 4, 0, 4, 4, Stop::Full(4)),
    Search(16, Method::Tail, ALL, 4, 4, 4, 4, Stop::Full(4)),
    Search(17, Method::Plain, ALL, 1, 0, 0, 0, Stop::Done),
    Search(17, Method::Wide, ALL, 1, 0, 0, 0, Stop::Done),
    Search(17, Method::Tail, ALL, 1, 0, 0, 0, Stop::Done),
];

// The bits of a pair are put into the buffer, and a call is made of it.
fn laid(p: Pair, method: Method, budget: usize, room: usize, s: &mut [u8]) -> Call {
    let Pair(text, n, pattern, m, fixed, _) = p;
    put_digits(s, TEXT, text, n);
    put_digits(s, 0, pattern, m);
    put_digits(s, FIXED, fixed, m);
    Call {
        n,
        text: 32,
        m,
        pattern: 8,
        fixed: 8,
        method,
        mark: 0,
        budget,
        room,
        scratch: call::SCRATCH,
    }
}

fn searched(case: Search, x: usize, s: &mut [u8; BYTES], list: &mut [u32; CELLS]) -> bool {
    let Search(pair, method, budget, room, steps, hits, mark, stop) = case;
    let Some(&pair) = PAIRS.get(pair) else {
        return false;
    };
    let c = laid(pair, method, budget, room, s);
    let got = call::single(c, x, s, list);
    let want = Run {
        steps,
        hits,
        mark,
        stop,
    };
    got.good && got.answer == Ok(want) && part(list, 0, hits) == part(pair.5, 0, hits)
}

// An example of rows 1 to 7 and 17, or what is accepted beside them: the number of the refusal; n and the text's bytes; m
// and the bytes of the pattern and of its second run; the method, the mark and the cells of the scratch.
#[derive(Clone, Copy)]
struct Refusal(
    Option<u32>,
    usize,
    usize,
    usize,
    usize,
    usize,
    Method,
    usize,
    usize,
);

const REFUSALS: [Refusal; 46] = [
    Refusal(Some(1), 1073741825, 8, 10, 2, 2, Method::Plain, 0, 48),
    Refusal(Some(2), 1073741824, 8, 10, 2, 2, Method::Plain, 0, 48),
    Refusal(Some(2), 9, 1, 8, 1, 1, Method::Plain, 0, 32),
    Refusal(Some(3), 9, 2, 0, 1, 0, Method::Plain, 0, 4222),
    Refusal(Some(4), 9, 2, 9, 1, 2, Method::Plain, 0, 32),
    Refusal(Some(5), 9, 2, 7, 1, 1, Method::Hash, 0, 512),
    Refusal(Some(6), 36, 5, 10, 2, 2, Method::Plain, 28, 48),
    Refusal(Some(7), 36, 5, 10, 2, 2, Method::Plain, 27, 47),
    Refusal(None, 36, 5, 10, 2, 2, Method::Plain, 27, 48),
    Refusal(None, 9, 2, 2048, 256, 256, Method::Wide, 0, 4222),
    Refusal(None, 9, 2, 8, 1, 1, Method::Hash, 0, 512),
    Refusal(None, 36, 5, 15, 2, 2, Method::Skip, 0, 271),
    // tail: a pattern of 65 bits, 4 before that, 5 before 6 and 7, and one of 64 bits
    Refusal(Some(5), 36, 5, 65, 9, 9, Method::Tail, 0, 2),
    Refusal(Some(4), 36, 5, 65, 8, 9, Method::Tail, 0, 2),
    Refusal(Some(5), 36, 5, 65, 9, 9, Method::Tail, 1, 1),
    Refusal(None, 36, 5, 64, 8, 8, Method::Tail, 0, 2),
    // each method with its figure and with a cell fewer, and plain with the bytes of the pattern for those of its longest row
    Refusal(Some(7), 36, 5, 10, 2, 2, Method::Plain, 0, 32),
    Refusal(None, 9, 2, 2, 1, 1, Method::Plain, 0, 32),
    Refusal(Some(7), 9, 2, 2, 1, 1, Method::Plain, 0, 31),
    Refusal(None, 9, 2, 2048, 256, 256, Method::Plain, 0, 4112),
    Refusal(Some(7), 9, 2, 2048, 256, 256, Method::Plain, 0, 4111),
    Refusal(Some(7), 9, 2, 8, 1, 1, Method::Hash, 0, 511),
    Refusal(Some(7), 36, 5, 15, 2, 2, Method::Skip, 0, 270),
    Refusal(None, 36, 5, 10, 2, 2, Method::Wide, 0, 146),
    Refusal(Some(7), 36, 5, 10, 2, 2, Method::Wide, 0, 145),
    Refusal(Some(7), 9, 2, 2048, 256, 256, Method::Wide, 0, 4221),
    Refusal(Some(7), 36, 5, 64, 8, 8, Method::Tail, 0, 1),
    // a second run too short: alone, and with each other one; and the neighbours that are accepted
    Refusal(Some(17), 9, 2, 9, 2, 1, Method::Plain, 0, 32),
    Refusal(Some(17), 9, 2, 9, 2, 0, Method::Plain, 0, 32),
    Refusal(None, 9, 2, 9, 2, 2, Method::Plain, 0, 32),
    Refusal(Some(17), 9, 2, 1, 1, 0, Method::Plain, 0, 16),
    Refusal(None, 9, 2, 1, 1, 1, Method::Plain, 0, 16),
    Refusal(Some(17), 9, 2, 2048, 256, 255, Method::Wide, 0, 4222),
    Refusal(Some(17), 36, 5, 64, 8, 7, Method::Tail, 0, 2),
    Refusal(Some(1), 1073741825, 8, 10, 2, 1, Method::Plain, 0, 48),
    Refusal(Some(2), 9, 1, 8, 1, 0, Method::Plain, 0, 32),
    Refusal(Some(3), 9, 2, 2049, 257, 256, Method::Plain, 0, 4128),
    Refusal(Some(3), 9, 2, 0, 0, 0, Method::Plain, 0, 16),
    Refusal(Some(4), 9, 2, 9, 1, 1, Method::Plain, 0, 32),
    Refusal(Some(17), 9, 2, 7, 1, 0, Method::Hash, 0, 512),
    Refusal(Some(17), 36, 5, 14, 2, 1, Method::Skip, 0, 270),
    Refusal(Some(17), 36, 5, 65, 9, 8, Method::Tail, 0, 2),
    Refusal(Some(17), 36, 5, 10, 2, 1, Method::Plain, 28, 48),
    Refusal(Some(17), 36, 5, 10, 2, 1, Method::Plain, 27, 47),
    // V1 by skip, and hash with cells for one entry of each value
    Refusal(Some(5), 36, 5, 10, 2, 2, Method::Skip, 0, 266),
    Refusal(Some(7), 9, 2, 8, 1, 1, Method::Hash, 0, 256),
];

fn refused(case: Refusal, x: usize, s: &[u8], list: &mut [u32]) -> bool {
    let Refusal(why, n, text, m, pattern, fixed, method, mark, scratch) = case;
    let c = Call {
        n,
        text,
        m,
        pattern,
        fixed,
        method,
        mark,
        budget: ALL,
        room: 20,
        scratch,
    };
    let got = call::single(c, x, s, list);
    got.good && got.answer.err() == why.map(Refused)
}

// A pair, a value and its H. Of V1 with a wild field they are two values with H = 0 besides its own last eight bits, and
// others.
const VALUES: [(usize, usize, usize); 12] = [
    (1, 101, 2),
    (1, 203, 1),
    (1, 150, 0),
    (1, 255, 19),
    (1, 0, 21),
    (10, 52, 0),
    (10, 40, 0),
    (10, 0, 0),
    (10, 64, 2),
    (10, 144, 1),
    (10, 255, 10),
    (16, 165, 0),
];

fn hash(pair: usize, value: usize, h: usize, s: &mut [u8]) -> bool {
    let Some(&Pair(_, _, pattern, m, fixed, _)) = PAIRS.get(pair) else {
        return false;
    };
    put_digits(s, 0, pattern, m);
    put_digits(s, FIXED, fixed, m);
    put_digits(s, TEXT, value, 8);
    single::hash(s, m, 3, 3) && naive::least(s, m, TEXT_BIT, 0) == h
}

// Lists of twelve calls over the pairs with wild bits.
const LISTS: usize = 40;

fn list_of_calls(i: usize, x: usize, s: &mut [u8], list: &mut [u32]) -> bool {
    let c = laid(PAIRS[10 + i % 8], Method::Plain, 0, 0, s);
    joined(c, true, x, s, list)
}

// How many cases there are.
pub(crate) const CASES: usize = SEARCHES.len() + REFUSALS.len() + VALUES.len() + LISTS;

// A case over a buffer of zeros.
pub(crate) fn one(number: usize, x: usize) -> bool {
    let mut s = [0u8; BYTES];
    let mut list = [0u32; CELLS];
    if let Some(&case) = SEARCHES.get(number) {
        return searched(case, x, &mut s, &mut list);
    }
    let i = number.saturating_sub(SEARCHES.len());
    if let Some(&case) = REFUSALS.get(i) {
        return refused(case, x, &s, &mut list);
    }
    let i = i.saturating_sub(REFUSALS.len());
    if let Some(&(pair, value, h)) = VALUES.get(i) {
        return hash(pair, value, h, &mut s);
    }
    list_of_calls(number, x, &mut s, &mut list)
}
