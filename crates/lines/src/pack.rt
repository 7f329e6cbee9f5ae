// Packing of characters 0 and 1 into bytes, the first character leftmost.
ghost use Rattle.std.specs.Prelude.{◌≡◌, map, ◌≤◌, length};
ghost use Rattle.bits.specs.Packed.{bytes_for};
ghost use Rattle.lines.specs.Input.{bit_of};
ghost use Rattle.lines.specs.Packing.{bits_from, packed};

use arrayvec::ArrayVec;
use bits::ByteNo;

// Eight characters as a byte; past the last one the bits are 0.
pub(crate) fn byte(chars: &[u8]) -> u8
    ensures { result ≡ bits_from (map bit_of chars.now) 0 8 }
{
    let mut x = 0;
    for k in 0..8 {
        x = x * 2 + chars.get(k).copied().unwrap_or(b'0') % 2;
    }
    x
}

// The characters packed into bytes.
pub fn pack<const N: usize>(chars: &[u8]) -> ArrayVec<u8, N>
    requires { bytes_for (length chars.now) ≤ N }
    ensures { result.items ≡ packed (map bit_of chars.now) }
{
    let per_byte = ByteNo(1).place().0 as usize; // the bits before byte 1
    let mut bytes = ArrayVec::new();
    for eight in chars.chunks(per_byte) {
        bytes.push(byte(eight));
    }
    bytes
}
