// Eight bits, H and the cells of scratch by themselves, with their refusals. All have the rows of the table that a search has,
// so that the search's own check serves, of a call whose other conditions do not hold.
use crate::call::{Call, SCRATCH};
use crate::drawn::{pattern_length, repeat};
use crate::naive;
use crate::wild::second_run;
use bits::Place;
use draws::cells::{get, part, put};
use draws::draw::{choose, draw};
use draws::judged::Refused;
use draws::number::{Low, ceiling};
use draws::packed;
use draws::packed::{BYTES, FIXED, TEXT, TEXT_BIT};
use eight::Shown;
use search::{Method, Refusal, hash_value, scratch_cells};

// A call that is accepted.
const ACCEPTED: Call = Call {
    n: 0,
    text: 0,
    m: 8,
    pattern: 1,
    fixed: 1,
    method: Method::Plain,
    mark: 0,
    budget: 0,
    room: 0,
    scratch: SCRATCH,
};

fn shown(answer: Result<Shown, eight::Refusal>) -> Result<Shown, Refused> {
    answer.map_err(|why| Refused(why.number()))
}

fn hashed(answer: Result<u32, Refusal>) -> Result<u32, Refused> {
    answer.map_err(|why| Refused(why.number()))
}

fn told(answer: Result<u64, Refusal>) -> Result<u64, Refused> {
    answer.map_err(|why| Refused(why.number()))
}

// Bit counts about the greatest one, once in 50, or small.
const COUNTS: [(usize, usize); 2] = [(1073741820, 9), (0, 101)];

// Bit p of the n bits of the text, or 0 from n on.
fn before_end(s: &[u8], n: usize, p: usize) -> u8 {
    if p < n {
        packed::bit(s, p.wrapping_add(TEXT_BIT))
    } else {
        0
    }
}

// Whether the buffer's first byte and a count are what document 02 says of the eight bits from p on, of n in the text: bit j
// is that of the text where p + j is below n, else 0, and the count is how many are below n.
fn eight_are(s: &[u8], n: usize, p: usize, count: u32) -> bool {
    let inside = (0..8).filter(|&j| p.wrapping_add(j) < n).count();
    (0..8).all(|j| packed::bit(s, j) == before_end(s, n, p.wrapping_add(j)))
        && u32::low(inside) == count
}

// Eight bits of n in so many bytes, from p on. Of a search's rows only 1 and 2 can hold, since mark and pattern are good.
fn eight_from(n: usize, a: usize, p: usize, s: &mut [u8; BYTES]) -> bool {
    let want = naive::check(Call {
        n,
        text: a,
        ..ACCEPTED
    });
    let got = eight::eight_bits(part(s, TEXT, a), n as u64, Place(u32::low(p)));
    match shown(got) {
        Ok(shown) => {
            put(s, 0, shown.byte);
            want == Ok(()) && eight_are(s, n, p, shown.count)
        }
        Err(why) => want == Err(why),
    }
}

// A place about so many bits, or, once in 16, about the greatest number of 32 bits.
fn drawn_place(x: usize, bits: usize) -> usize {
    if draw(x, 2, 16) == 0 {
        draw(x, 3, 16) + 4294967280
    } else {
        draw(x, 4, bits.wrapping_add(3))
    }
}

pub(crate) fn eight_bits(x: usize, s: &mut [u8; BYTES]) -> bool {
    let n = choose(&COUNTS, draw(x, 0, 50), x, 1);
    let short = n.min(100);
    let a = ceiling(short).wrapping_add(draw(x, 5, 4)).saturating_sub(1);
    eight_from(n, a, drawn_place(x, short), s)
}

// Every n from 0 to 70, each with the places from 0 to 95 and the last 16 of 32 bits.
pub(crate) const EIGHTS: usize = 7952;

// The bits from n on are ones, and up to two bytes more are lent than n bits take.
pub(crate) fn every_eight(i: usize, s: &mut [u8; BYTES]) -> bool {
    let n = i / 112;
    let k = i % 112;
    let p = if k < 96 { k } else { 4294967184 + k };
    packed::put_bits(s, n.wrapping_add(TEXT_BIT), 100, 1);
    eight_from(n, ceiling(n).wrapping_add(i % 3), p, s)
}

// The cells of scratch that are told for the method and m, which are refused as a call with all its bytes is.
pub(crate) fn cells_told(c: Call) -> bool {
    let want = naive::check(Call {
        m: c.m,
        pattern: ceiling(c.m),
        fixed: ceiling(c.m),
        method: c.method,
        ..ACCEPTED
    });
    let got = told(scratch_cells::scratch_cells(c.method, c.m as u64));
    match want {
        Ok(()) => got == Ok(naive::figure(c.method, c.m) as u64),
        Err(why) => got == Err(why),
    }
}

// H of the m bits of a pattern in b bytes at the front, with f bytes of its second run, and the value at the text's.
pub(crate) fn hash(s: &[u8], m: usize, b: usize, f: usize) -> bool {
    let want = naive::check(Call {
        m,
        pattern: b,
        fixed: f,
        method: Method::Hash,
        ..ACCEPTED
    });
    let got = hashed(hash_value::hash_value(
        part(s, 0, b),
        part(s, FIXED, f),
        m as u64,
        get(s, TEXT),
    ));
    match want {
        Ok(()) => got == Ok(u32::low(naive::least(s, m, TEXT_BIT, 0))),
        Err(why) => got == Err(why),
    }
}

// The value is drawn, or a part of the pattern. Pattern and second run have up to two bytes more than they need, or one
// too few; the second run has enough where no bit is wild.
pub(crate) fn drawn_hash(wild: bool, x: usize, s: &mut [u8; BYTES]) -> bool {
    let length = pattern_length(x, Method::Hash).wrapping_add(draw(x, 3, 4));
    let m = length.saturating_sub(1);
    repeat(s, 0, m, draw(x, 4, 12));
    repeat(s, TEXT_BIT, 8, draw(x, 5, 3));
    if draw(x, 7, 2) == 1 {
        packed::copy(s, draw(x, 6, m.wrapping_add(1)), TEXT_BIT, 8);
    }
    second_run(wild, s, m, x);
    let b = ceiling(m).wrapping_add(draw(x, 8, 4)).saturating_sub(1);
    let f = if wild {
        ceiling(m).wrapping_add(draw(x, 9, 4)).saturating_sub(1)
    } else {
        ceiling(m).wrapping_add(draw(x, 9, 3))
    };
    hash(s, m, b, f)
}
