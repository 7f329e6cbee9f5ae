// Reading bits of a packed run: the two units of position, one bit, and loads of up to 64 bits for the matchers. The
// definitions that the contracts cite are in specs/Packed.antt.
#![tactic(auto)]

ghost use Rattle.std.specs.Prelude.{◌≡◌, ◌+◌, ◌*◌, ◌/◌, ◌%◌, ◌^◌, ◌≤◌, ◌<◌};
ghost use Rattle.bits.specs.Packed.{bytes_for};

pub mod bit;
pub mod load;

// A bit number, counted from 0. Document 01's own word for it is "place".
#[derive(Clone, Copy, PartialEq, Eq, PartialOrd, Ord, Debug)]
pub struct Place(pub u32);

// A byte number, counted from 0.
#[derive(Clone, Copy, PartialEq, Eq, PartialOrd, Ord, Debug)]
pub struct ByteNo(pub usize);

impl Place {
    // The byte that holds the bit.
    pub fn byte(self) -> ByteNo
        ensures { result.0 ≡ self.0 / 8 }
    {
        ByteNo((self.0 / 8) as usize)
    }

    // The bit's offset from the left of its byte.
    pub fn offset(self) -> u32
        ensures { result ≡ self.0 % 8 }
    {
        self.0 % 8
    }
}

impl ByteNo {
    // The leftmost bit of the byte. For callers whose bytes lie below 2^29.
    pub fn place(self) -> Place
        requires { self.0 < 2 ^ 29 }
        ensures { result.0 ≡ self.0 * 8 }
    {
        Place((self.0 * 8) as u32)
    }

    // The bit at an offset from the left of the byte.
    pub fn place_at(self, offset: u32) -> Place
        requires { (self.0 < 2 ^ 29) × (offset < 8) }
        ensures { result.0 ≡ 8 * self.0 + offset }
    {
        Place((self.0 * 8) as u32 + offset)
    }
}

// How many bytes so many bits take, document 01's ceil(n/8).
pub fn bytes_for(n: u64) -> u64
    requires { n ≤ 2 ^ 63 }
    ensures { result ≡ bytes_for n }
{
    n.div_ceil(8)
}
