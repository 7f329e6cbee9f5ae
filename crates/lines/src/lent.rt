// The lines of `line` and the bytes of `pack`, for a caller who lends a buffer: what is printed is stored from an index
// on, and the index after it is the result.
ghost use Rattle.std.specs.Prelude.{◌+◌, ◌*◌, ◌^◌, ◌<◌, ◌≤◌, length, take};
ghost use Rattle.bits.specs.Packed.{bytes_for};
ghost use Rattle.lines.specs.Inner.{Puts};
ghost use Rattle.lines.specs.Line.{numbers, accepted_line, refused_line};
ghost use Rattle.lines.specs.Packing.{Packs};

use crate::line::name_of;
use crate::pack::byte;
use bits::ByteNo;
use itoa::Buffer;
use rules::Method;

// Stores bytes from `at` on, and gives the index after them.
pub fn put(out: &mut [u8], at: usize, bytes: &[u8]) -> usize
    requires { at + length bytes.now ≤ length out.old }
    ensures { Puts out.old at bytes.now result out.new }
{
    let end = at + bytes.len();
    out[at..end].copy_from_slice(bytes);
    end
}

// Stores each number, after a space.
fn put_numbers(out: &mut [u8], start: usize, list: &[u32]) -> usize
    requires { start + length list.now * 11 ≤ length out.old }
    ensures is { Puts out.old start (numbers list.now) result out.new }
    ensures short { result ≤ start + length list.now * 11 }
{
    let mut digits = Buffer::new();
    let mut at = start;
    for n in list {
        let after = put(out, at, b" ");
        at = put(out, after, digits.format(*n).as_bytes());
    }
    at
}

// Stores the line of an accepted call: the first `hits` cells of the list are its places.
pub fn accepted(
    out: &mut [u8],
    at: usize,
    method: Method,
    steps: u32,
    hits: u32,
    list: &[u32],
) -> usize
    requires { (hits ≤ length list.now) × (at + 28 + hits * 11 ≤ length out.old) }
    ensures is { Puts out.old at (accepted_line method steps (take hits list.now)) result out.new }
    ensures short { result ≤ at + 28 + hits * 11 }
{
    let a = put(out, at, name_of(method));
    let b = put_numbers(out, a, &[steps, hits]);
    let c = put_numbers(out, b, &list[..hits as usize]);
    put(out, c, b"\n")
}

// Stores the line of a refused call.
pub fn refused(out: &mut [u8], at: usize, method: Method, number: u32) -> usize
    requires { at + 28 ≤ length out.old }
    ensures is { Puts out.old at (refused_line method number) result out.new }
    ensures short { result ≤ at + 28 }
{
    let a = put(out, at, name_of(method));
    let b = put(out, a, b" refused");
    let c = put_numbers(out, b, &[number]);
    put(out, c, b"\n")
}

// Packs the characters to the front of `out`, and gives how many bytes they take.
pub fn pack(chars: &[u8], out: &mut [u8]) -> usize
    requires { (length chars.now < 2 ^ 31) × (bytes_for (length chars.now) ≤ length out.old) }
    ensures { Packs chars.now out.old result out.new }
{
    let count = bits::bytes_for(chars.len() as u64) as usize;
    for b in 0..count {
        let first = ByteNo(b).place().0 as usize;
        out[b] = byte(&chars[first..]);
    }
    count
}
