// The rows that a plain search makes in the scratch, bit by bit in document 01's words. A call with a budget of no step makes
// its tables and nothing else. What the scratch then holds is promised to no caller: this looks into the library.
use crate::call::{Call, GUARD, SCRATCH, judged};
use crate::naive;
use crate::wild::second_run;
use draws::cells;
use draws::draw::draw;
use draws::number::ceiling;
use draws::packed::{BYTES, FIXED_BIT, bit};
use search::Method;

// Bit p of a run of row bytes, counted from the left of its first byte: row i is run i, and its mask run 8 + i. A cell holds
// eight bytes of a run, the first one highest, and the next cells hold those of the other runs.
fn bit_in(scratch: &[u64], run: usize, p: usize) -> u64 {
    let cell = (p / 64 * 16).wrapping_add(run).wrapping_add(GUARD);
    (cells::get(scratch, cell) >> (63 - p % 64)) % 2
}

// Bit p of row i, which is bit j of byte h for p = 8h + j: where the index 8h − i + j is in 0..m−1 and the pattern's bit there is
// fixed, the mask has a 1 and the row that bit; elsewhere both have a 0.
fn bit_good(scratch: &[u64], s: &[u8], m: usize, i: usize, p: usize) -> bool {
    let q = p.saturating_sub(i);
    let here = i <= p && q < m && bit(s, q.wrapping_add(FIXED_BIT)) == 1;
    let shown = if here { bit(s, q) as u64 } else { 0 };
    bit_in(scratch, i.wrapping_add(8), p) == here as u64 && bit_in(scratch, i, p) == shown
}

// The bytes 0 to ceil((m+i)/8) − 1 of row i, at most 257 of them.
fn row_good(scratch: &[u64], s: &[u8], m: usize, i: usize) -> bool {
    let end = ceiling(m.wrapping_add(i)).wrapping_mul(8);
    (0..end).all(|p| bit_good(scratch, s, m, i, p))
}

fn rows_good(scratch: &[u64; SCRATCH], s: &[u8], m: usize) -> bool {
    (0..8).all(|i| row_good(scratch, s, m, i))
}

// Every length, with every bit fixed and with wild bits.
pub(crate) const LENGTHS: usize = 4096;

// The bits from m on are drawn in both runs, and the scratch comes with other content.
pub(crate) fn each_length(i: usize, x: usize, s: &mut [u8; BYTES], list: &mut [u32]) -> bool {
    let m = i % 2048 + 1;
    let n = m.wrapping_add(draw(x, 0, 20));
    second_run(2048 <= i, s, m, x);
    let c = Call {
        n,
        text: ceiling(n),
        m,
        pattern: ceiling(m).wrapping_add(draw(x, 1, 3)),
        fixed: ceiling(m).wrapping_add(draw(x, 2, 3)),
        method: Method::Plain,
        mark: 0,
        budget: 0,
        room: 0,
        scratch: naive::figure(Method::Plain, m),
    };
    let mut scratch = [0u64; SCRATCH];
    cells::fill(&mut scratch, 0, x);
    let call = judged(c, x, s, list, &mut scratch);
    call.good && rows_good(&scratch, s, m)
}
