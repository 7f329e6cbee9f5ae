// Numbers that a drawn case may put out of range: nothing here stops.
ghost use Rattle.std.specs.Prelude.{◌≡◌, ◌%◌, ℕ};

// A type of numbers that larger ones are cut down to.
pub trait Low: Copy + PartialEq {
    ghost low: { ℕ → Self };

    // The last bits of a number, as many as the type has.
    fn low(x: usize) -> Self
        ensures { result ≡ low x };
}

impl Low for u8 {
    ghost low = { λ x. x % 256 };

    fn low(x: usize) -> u8 {
        (x % 256) as u8
    }
}

impl Low for u32 {
    ghost low = { λ x. x % 4294967296 };

    fn low(x: usize) -> u32 {
        (x % 4294967296) as u32
    }
}

impl Low for u64 {
    ghost low = { λ x. x };

    fn low(x: usize) -> u64 {
        x as u64
    }
}

// The bytes that so many bits need. The sum wraps for the last seven numbers, unlike `div_ceil`.
pub fn ceiling(bits: usize) -> usize {
    bits.wrapping_add(7) / 8
}
