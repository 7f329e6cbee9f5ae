// Eight bits from a bit number, by themselves, on any input. Near the end of the text the answer says how many of them lie
// before n, and the others are 0, so that padding is never taken for a part of the text.
#![tactic(auto)]

ghost use Rattle.std.specs.Prelude.{◌≡◌, ℕ, ◌+◌, ◌-◌, ◌*◌, ◌^◌, ◌≤◌, ◌<◌, length, MatchResult};
ghost use Rattle.bits.specs.Packed.{bits_at};
ghost use Rattle.eight.specs.Claims.{Good};
ghost use Rattle.eight.specs.Eight.{number, number_of, verdict_of, eight_at};

use bits::Place;

// Why eight bits are refused.
#[derive(Clone, Copy, PartialEq, Eq, Debug)]
pub enum Refusal {
    // The bit count is above 2^30.
    TextTooLong,
    // There are fewer bytes than the bit count takes.
    TextBytesMissing,
}

impl Refusal {
    // Document 01's number of the refusal.
    pub fn number(self) -> u32
        ensures { result ≡ number_of self }
    {
        match self {
            Refusal::TextTooLong => 1,
            Refusal::TextBytesMissing => 2,
        }
    }
}

// The bits of the text, from the left of the byte, and how many there are; after them the byte has zeros.
#[derive(Clone, Copy, PartialEq, Eq, Debug)]
pub struct Shown {
    pub byte: u8,
    pub count: u32,
}

// Refuses a text that is too long, or has too few bytes.
#[tactic(auto, using(crate::proofs::ReadClaims::refused_long, crate::proofs::ReadClaims::refused_short))]
fn judge(bytes: &[u8], n: u64) -> Result<(), Refusal>
    ensures { MatchResult result (λ _. Good (record { bytes = bytes.now; count = n })) (λ r. (p : ℕ) → number (number_of r) ≡ eight_at (record { bytes = bytes.now; count = n }) p) }
{
    if 1073741824 < n {
        return Err(Refusal::TextTooLong);
    }
    if (bytes.len() as u64) < bits::bytes_for(n) {
        return Err(Refusal::TextBytesMissing);
    }
    Ok(())
}

// The first `count` bits from p on, with zeros after them. The last of them is in the byte of the first or in the next one:
// two loads and no branch.
fn first_bits(bytes: &[u8], p: Place, count: u32) -> u8
    requires { (0 < count) × (count ≤ 8) × (p.0 + count ≤ length bytes.now * 8) × (p.0 + count ≤ 2 ^ 32) }
    ensures { result ≡ bits_at bytes.now p.0 count * 2 ^ (8 - count) }
{
    let last = Place(p.0 + (count - 1));
    let b = p.byte().0;
    let e = last.byte().0;
    let left = u32::from(bytes[b]);
    let right = u32::from(bytes[e]);
    let eight = (((left * 256 + right) << p.offset()) >> 8) % 256;
    (((eight >> (8 - count)) << (8 - count)) % 256) as u8
}

// The bits p to p + 7 of the first n bits, as a byte with bit p leftmost, and how many of them lie before n. Sums have 64 bits,
// since p may be any number of 32 bits.
#[tactic(auto, using(crate::proofs::ReadClaims::shows_none))]
pub fn eight_bits(bytes: &[u8], n: u64, p: Place) -> Result<Shown, Refusal>
    ensures { verdict_of result ≡ eight_at (record { bytes = bytes.now; count = n }) p.0 }
{
    judge(bytes, n)?;
    let end = u64::from(p.0) + 8;
    if end <= n {
        return Ok(Shown {
            byte: first_bits(bytes, p, 8),
            count: 8,
        });
    }
    // How many of the eight do not lie before n.
    let past = end - n;
    if 8 <= past {
        return Ok(Shown { byte: 0, count: 0 });
    }
    let count = (8 - past) as u32;
    Ok(Shown {
        byte: first_bits(bytes, p, count),
        count,
    })
}
