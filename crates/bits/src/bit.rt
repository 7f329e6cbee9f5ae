// One bit of a packed run.
ghost use Rattle.std.specs.Prelude.{◌≡◌};
ghost use Rattle.bits.specs.Packed.{bit_at};

use crate::Place;

// Bit p of the bytes; 0 past the last byte.
pub fn bit(bytes: &[u8], p: Place) -> u8
    ensures { result ≡ bit_at bytes.now p.0 }
{
    let from_right = 7 - p.offset();
    bytes
        .get(p.byte().0)
        .map_or(0, |byte| (*byte >> from_right) % 2)
}
