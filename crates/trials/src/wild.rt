// Second runs of a pattern, which say of its bits which are fixed and which are wild: none, few, many or all of them
// wild, a wild field, or a period of its own.
use crate::drawn::repeat;
use draws::draw::{choose, draw};
use draws::number::Low;
use draws::packed::{FIXED_BIT, bit, flip, put_bits};

// One to three bits become b, and all others of the m bits the other one.
fn few(s: &mut [u8], m: usize, x: usize, b: u8) {
    put_bits(s, FIXED_BIT, m, b ^ 1);
    for i in 23..26 {
        put_bits(s, draw(x, i, m).wrapping_add(FIXED_BIT), 1, b);
    }
}

// Lengths of a wild field, of every class, out of 4.
const FIELDS: [(usize, usize); 2] = [(1, 16), (1, 120)];

// A wild field among fixed bits: at the beginning, at the end, or somewhere, by the class.
fn field(s: &mut [u8], m: usize, x: usize, class: usize) {
    let k = choose(&FIELDS, draw(x, 23, 4) / 3, x, 24).min(m);
    let last = m.saturating_sub(k);
    let from = match class {
        6 => 0,
        7 => last,
        _ => draw(x, 25, last.wrapping_add(1)),
    };
    put_bits(s, FIXED_BIT, m, 1);
    put_bits(s, from.wrapping_add(FIXED_BIT), k, 0);
}

// The second run of a pattern of m bits, in a buffer of drawn bits, by its class, out of 10: none, all, all but a few
// or a few are wild, about half of them are, those of a drawn period, or a field.
fn draw_fixed(s: &mut [u8], m: usize, x: usize) {
    let class = draw(x, 21, 10);
    match class {
        0 => put_bits(s, FIXED_BIT, m, 1),
        1 => put_bits(s, FIXED_BIT, m, 0),
        2 => few(s, m, x, 1),
        3 => few(s, m, x, 0),
        4 => {}
        5 => repeat(s, FIXED_BIT, m, draw(x, 23, 24) + 1),
        _ => field(s, m, x, class),
    }
}

// Of the first `end` bits of the pattern those that do not matter become the other value where the mask, again and
// again, has a 1: wild ones, and those from m on. So do the bits of the second run from m on.
pub(crate) fn change_free(s: &mut [u8], m: usize, end: usize, mask: usize) {
    for j in 0..end {
        let b = u8::low(mask >> (j % 64)) % 2;
        let after = (m <= j) as u8;
        let wild = bit(s, j.wrapping_add(FIXED_BIT)) ^ 1;
        flip(s, j, (wild | after) & b);
        flip(s, j.wrapping_add(FIXED_BIT), after & b);
    }
}

// The second run of a pattern of m bits: all of them fixed, or drawn, and then the pattern's wild bits are drawn anew,
// so that their values tell nothing.
pub(crate) fn second_run(wild: bool, s: &mut [u8], m: usize, x: usize) {
    if wild {
        draw_fixed(s, m, x);
        change_free(s, m, m, x);
    } else {
        put_bits(s, FIXED_BIT, m, 1);
    }
}
