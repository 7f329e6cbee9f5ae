// The plain method: every place, by shifted rows. A cell holds eight row bytes: cell 16 k + i is bits 64 k .. 64 k + 63 of
// row i, and cell 16 k + 8 + i the same of its mask.
#![tactic(auto)]

ghost use Rattle.std.specs.Prelude.{◌≡◌, true, cond, ◌↔◌, ℕ, ◌+◌, ◌*◌, ◌^◌, ◌≤◌, ◌<◌, ltb, length, MatchOption};
ghost use Rattle.bits.specs.Packed.{bit_of};
ghost use Rattle.matcher.specs.Tables.{row_chunks};
ghost use Rattle.plain.specs.RowCells.{first_fits, cell_fits, shifted_bit, Filled, NonePass, IsFirst, Small};

use bits::{ByteNo, Place, load};
use matcher::query::Pattern;
use matcher::search::{Rule, Search};
use matcher::steps::{Full, Matcher, Reached};

// The plain method.
pub struct Plain;

impl Rule for Plain {
    ghost use Rattle.rules.specs.declared.Method.TheVariants as methods;

    ghost method = { methods.Plain };
}

// How many cells of eight bytes the longest row takes.
fn row_chunks(m: u32) -> u32
    requires { m ≤ 2048 }
    ensures { result ≡ row_chunks m }
{
    (m + 7).div_ceil(64)
}

// Ones where the 64 bits from bit 64 k on are the pattern's, zeros past its end. The masks are these at its fixed bits.
fn ones(m: u32, k: u32) -> u64
    requires { (m ≤ 2048) × (k ≤ 33) }
    ensures { (j : ℕ) → j < 64 → bit_of 64 result j ≡ cond (ltb (64 * k + j) m) 1 0 }
{
    let all = 18446744073709551615u64;
    if m <= 64 * k {
        return 0;
    }
    if 64 * k + 64 <= m {
        return all;
    }
    all << (64 * k + 64 - m)
}

// The 64 bits that begin i bits before those of x, where those of prev stand.
fn shifted(prev: u64, x: u64, i: usize) -> u64
    requires { i < 8 }
    ensures { (j : ℕ) → j < 64 → bit_of 64 result j ≡ shifted_bit prev x i j }
{
    ((prev << (63 - i)) << 1) | (x >> i)
}

// The cells k of all rows and their masks, from the 64 bits that stand there unshifted and the 64 before them.
fn fill(cells: &mut [u64], k: usize, prev: u64, x: u64, prev_mask: u64, mask: u64)
    requires { (k ≤ 33) × (16 * k + 16 ≤ length cells.old) }
    ensures { Filled k 8 prev x prev_mask mask cells.old cells.new }
{
    for i in 0usize..8 {
        cells[16 * k + i] = shifted(prev, x, i);
        cells[16 * k + 8 + i] = shifted(prev_mask, mask, i);
    }
}

// The first row from `from` on whose first cell agrees with eight bytes of the text.
fn first_row(cells: &[u64], bytes: u64, from: usize) -> Option<usize>
    requires { 16 ≤ length cells.now }
    ensures { MatchOption result (NonePass (first_fits bytes cells.now) from 8) (λ r. (r < 8) × IsFirst (first_fits bytes cells.now) from r) }
{
    // A loop and no `find`, with which places that mostly agree took half as long again.
    for i in from..8 {
        if bytes & cells[8 + i] == cells[i] {
            return Some(i);
        }
    }
    None
}

// The first place from byte `from` on that the first cell of its row does not rule out. Each load serves the eight places of a
// byte, so in the limit's byte it may lie after the limit.
fn in_blocks(text: &[u8], cells: &[u64], from: ByteNo, limit: Place) -> Option<Place>
    requires { (16 ≤ length cells.now) × (limit.0 ≤ 2 ^ 30 + 1) }
    ensures { MatchOption result (NonePass (λ p. cell_fits text.now cells.now p 0) (8 * from.0) limit.0) (λ r. IsFirst (λ p. cell_fits text.now cells.now p 0) (8 * from.0) r.0) }
{
    for byte in from.0..bits::bytes_for(limit.0 as u64) as usize {
        let b = ByteNo(byte);
        if let Some(row) = first_row(cells, load::word_at_byte(text, b), 0) {
            return Some(b.place_at(row as u32));
        }
    }
    None
}

// The first place from s on that the first cell of its row does not rule out, likewise.
fn candidate(text: &[u8], cells: &[u64], s: Place, limit: Place) -> Option<Place>
    requires { (16 ≤ length cells.now) × (limit.0 ≤ 2 ^ 30 + 1) × (s.0 ≤ limit.0) }
    ensures first { MatchOption result (NonePass (λ p. cell_fits text.now cells.now p 0) s.0 limit.0) (λ r. IsFirst (λ p. cell_fits text.now cells.now p 0) s.0 r.0) }
    ensures small { Small cells.now }
{
    let b = s.byte();
    match first_row(cells, load::word_at_byte(text, b), s.offset() as usize) {
        Some(row) => Some(b.place_at(row as u32)),
        None => in_blocks(text, cells, ByteNo(b.0 + 1), limit),
    }
}

// Whether the cells of the row from cell `from` on agree at place s: cell k, whose first bit is the row's bit 64 k, with as
// many bytes of the text.
fn row_fits(text: &[u8], m: u32, cells: &[u64], s: Place, from: usize) -> bool
    requires { (m ≤ 2048) × (s.0 ≤ 2 ^ 30) × (16 * row_chunks m ≤ length cells.now) }
    ensures small { Small cells.now }
    ensures agrees { (result ≡ true) ↔ ((k : ℕ) → from ≤ k → k < row_chunks m → cell_fits text.now cells.now s.0 k ≡ true) }
{
    let row = s.offset() as usize;
    for k in from..row_chunks(m) as usize {
        let c = 16 * k + row;
        let b = ByteNo(s.byte().0 + Place(64 * k as u32).byte().0);
        if load::word_at_byte(text, b) & cells[c + 8] != cells[c] {
            return false;
        }
    }
    true
}

impl Matcher for Plain {
    // Makes the rows and their masks.
    fn prepare(pattern: &Pattern, cells: &mut [u64]) {
        let Pattern { bytes, fixed, m } = *pattern;
        let mut prev = 0u64;
        let mut prev_mask = 0u64;
        for k in 0..row_chunks(m) {
            let b = Place(64 * k).byte();
            let mask = load::word_near_end(fixed, b) & ones(m, k);
            let x = load::word_near_end(bytes, b) & mask;
            fill(cells, k as usize, prev, x, prev_mask, mask);
            prev = x;
            prev_mask = mask;
        }
    }

    // The place s is written if the pattern stands there.
    fn step(search: &Search<Plain>, s: Place, list: &mut [u32]) -> Result<Reached, Full> {
        let query = &search.query;
        let at = Place(s.0 + 1);
        if !row_fits(query.text, query.pattern.m, search.cells, s, 0) {
            return Ok(Reached {
                at,
                steps: 1,
                hits: 0,
            });
        }
        if list.is_empty() {
            return Err(Full(Reached {
                at: s,
                steps: 0,
                hits: 0,
            }));
        }
        list[0] = s.0;
        Ok(Reached {
            at,
            steps: 1,
            hits: 1,
        })
    }

    // One step for each place: those before a candidate find nothing, and the candidate is written if the rest of its row
    // agrees too. If it finds no cell, its step is not one of them.
    fn advance(
        search: &Search<Plain>,
        s: Place,
        budget: u32,
        list: &mut [u32],
    ) -> Result<Reached, Full> {
        let query = &search.query;
        let text = query.text;
        let m = query.pattern.m;
        let cells = search.cells;
        let limit = Place((query.n - m + 1).min(s.0.saturating_add(budget)));
        let mut at = s;
        let mut hits = 0usize;
        while let Some(p) = candidate(text, cells, at, limit) {
            if limit <= p {
                break;
            }
            if row_fits(text, m, cells, p, 1) {
                if list.len() <= hits {
                    return Err(Full(Reached {
                        at: p,
                        steps: p.0 - s.0,
                        hits,
                    }));
                }
                list[hits] = p.0;
                hits += 1;
            }
            at = Place(p.0 + 1);
        }
        Ok(Reached {
            at: limit,
            steps: limit.0 - s.0,
            hits,
        })
    }
}
