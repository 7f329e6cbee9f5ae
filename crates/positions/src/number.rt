// One number of the file (a varint, LEB128): how many bytes it takes, how it is stored, and how it is read.
ghost use Rattle.std.specs.Prelude.{◌≡◌, ◌+◌, ◌<◌, ◌≤◌, length, drop, set};
ghost use Rattle.std.proofs.lemmas.List.Edits.{sets};
ghost use Rattle.positions.specs.Encode.{encode_number};
ghost use Rattle.positions.specs.Decode.{read_number, read_groups};
ghost use Rattle.positions.specs.Inner.{reading_in};

use crate::ReadRefusal;

// No number of the file is above 2^30.
const LARGEST: u64 = 1073741824;

// How many bytes a number takes: one for each seven bits, with no branch, since the lengths of a list's numbers cannot be
// predicted. A number has 0 to 32 bits, and for these (9 * bits + 64) / 64 rounded down is bits / 7 rounded up, or 1 for no bit.
pub(crate) fn size(n: u32) -> usize
    ensures { (result ≡ length (encode_number n)) × (result ≤ 5) }
{
    let bits = 63 - u64::leading_zeros(2 * n as u64 + 1);
    ((9 * bits + 64) / 64) as usize
}

// Stores one byte.
fn put_byte(target: &mut [u8], at: usize, byte: u8)
    requires { at < length target.old }
    ensures { target.new ≡ set target.old at byte }
{
    target[at] = byte;
}

// Stores a number from `start` on, and gives the index after it. The loop goes by what is left of the number, which alone says
// how many bytes there are, so no `for` fits.
pub(crate) fn put(target: &mut [u8], start: usize, n: u32) -> usize
    requires { start + length (encode_number n) ≤ length target.old }
    ensures next { result ≡ start + length (encode_number n) }
    ensures stored { target.new ≡ sets target.old start (encode_number n) }
{
    let mut at = start;
    let mut rest = n;
    while 128 <= rest {
        put_byte(target, at, (rest % 128 + 128) as u8);
        at += 1;
        rest = rest / 128;
    }
    put_byte(target, at, rest as u8);
    at + 1
}

// The number that a file begins with, and the bytes after it.
pub(crate) fn read(file: &[u8]) -> Result<(u32, &[u8]), ReadRefusal>
    ensures { reading_in result ≡ read_number file.now }
{
    if file.is_empty() {
        return Err(ReadRefusal::FileEndsEarly);
    }
    read_here(file)
}

// The same where there is a byte. Most numbers are a single byte, which is tested first.
pub(crate) fn read_here(file: &[u8]) -> Result<(u32, &[u8]), ReadRefusal>
    requires { 0 < length file.now }
    ensures { reading_in result ≡ read_number file.now }
{
    let b = file[0];
    let rest = &file[1..];
    if b < 128 {
        return Ok((b as u32, rest));
    }
    read_on(rest, (b - 128) as u64)
}

// The number whose first group is `low`, read on from its second group.
fn read_on(file: &[u8], low: u64) -> Result<(u32, &[u8]), ReadRefusal>
    requires { low < 128 }
    ensures { reading_in result ≡ read_groups 4 128 low file.now }
{
    let mut rest = file;
    let mut value = low;
    let mut weight: u64 = 128;
    for _ in 0..4u32 {
        let Some((&b, after)) = rest.split_first() else {
            return Err(ReadRefusal::FileEndsEarly);
        };
        let b = b as u64;
        rest = after;
        if b < 128 {
            if b == 0 {
                return Err(ReadRefusal::NumberNotShortest);
            }
            let whole = value + b * weight;
            if LARGEST < whole {
                return Err(ReadRefusal::NumberTooLarge);
            }
            return Ok((whole as u32, rest));
        }
        value += (b - 128) * weight;
        weight *= 128;
    }
    Err(ReadRefusal::NumberTooLarge)
}
