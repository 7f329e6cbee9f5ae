// A naive writer and reader of the position list file, from the words of documents 01 and 02.
use draws::cells::{get, put};
use draws::judged::Refused;
use draws::number::Low;

const LIMIT: usize = 1073741824;

// Where the naive writer's file lies in a buffer; what the library writes lies at the front.
pub(crate) const FILE: usize = 128;

// The groups of a number from `start` on, and the index after them.
fn put_number(out: &mut [u8], start: usize, number: usize) -> usize {
    let mut at = start;
    let mut rest = number;
    while 128 <= rest {
        put(out, at, u8::low(rest % 128 + 128));
        at = at.wrapping_add(1);
        rest /= 128;
    }
    put(out, at, u8::low(rest));
    at.wrapping_add(1)
}

// The file of a list, and how many bytes it has.
pub(crate) fn encode(list: &[u32], out: &mut [u8]) -> Result<usize, Refused> {
    let mut at = put_number(out, FILE, list.len());
    let mut least = 0;
    for &p in list {
        let p = p as usize;
        if p < least || LIMIT <= p {
            return Err(Refused(8));
        }
        at = put_number(out, at, p - least);
        least = p + 1;
    }
    Ok(at.saturating_sub(FILE))
}

// `base` and the number at the front of a file, which may come to `top`; and the bytes after it.
fn number(file: &[u8], base: usize, top: usize) -> Result<(usize, &[u8]), Refused> {
    let mut value = base;
    for k in 0..5 {
        let Some(&group) = file.get(k) else {
            return Err(Refused(10));
        };
        value = value.wrapping_add((group as usize % 128) << (7 * k));
        if group < 128 {
            if 0 < k && group == 0 {
                return Err(Refused(11));
            }
            if top < value {
                return Err(Refused(12));
            }
            return Ok((value, &file[k + 1..]));
        }
    }
    // the fifth group says that another follows
    Err(Refused(12))
}

// A file that is read: how many positions it has, and whether the cells hold them.
#[derive(Clone, Copy)]
pub(crate) struct Read {
    pub count: usize,
    pub held: bool,
}

// What a file is read as, or its first fault; or 14 for a good file with fewer cells than its count.
pub(crate) fn decode(file: &[u8], room: usize, cells: &[u32]) -> Result<Read, Refused> {
    let (count, mut rest) = number(file, 0, LIMIT)?;
    let mut held = true;
    let mut least = 0;
    for i in 0..count {
        let (p, after) = number(rest, least, LIMIT - 1)?;
        held &= get(cells, i) == u32::low(p);
        least = p.wrapping_add(1);
        rest = after;
    }
    if !rest.is_empty() {
        return Err(Refused(13));
    }
    if room < count {
        return Err(Refused(14));
    }
    Ok(Read { count, held })
}
