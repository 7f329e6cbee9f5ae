// The flags of 32 places at a time: which patterns begin there, by their first 32 bits. From each of the eight offsets in a
// byte seven whole bytes lie in 64 bits, and the four places at that offset share them: place j has bytes j to j + 3.
ghost use Rattle.std.specs.Prelude.{◌≡◌, ◌≤◌, ◌<◌, length};
ghost use Rattle.set_tables.specs.Parts.{FourFound, Looked, Marked};

// The flags of the four places at offset i, the first of which shows the first bit of y. The answer is 0 only if none stands.
fn four(tables: &[u64], y: u64, i: usize, found: &mut [u64]) -> u64
    requires { (1024 ≤ length tables.now) × (i < 8) × (32 ≤ length found.old) }
    ensures { FourFound tables.now y i found.old found.new result }
{
    let a = (y >> 56) as usize;
    let b = ((y >> 48) % 256) as usize;
    let c = ((y >> 40) % 256) as usize;
    let d = ((y >> 32) % 256) as usize;
    let e = ((y >> 24) % 256) as usize;
    let f = ((y >> 16) % 256) as usize;
    let g = ((y >> 8) % 256) as usize;
    let first = (tables[a] & tables[256 + b]) & (tables[512 + c] & tables[768 + d]);
    let second = (tables[b] & tables[256 + c]) & (tables[512 + d] & tables[768 + e]);
    let third = (tables[c] & tables[256 + d]) & (tables[512 + e] & tables[768 + f]);
    let fourth = (tables[d] & tables[256 + e]) & (tables[512 + f] & tables[768 + g]);
    found[i] = first;
    found[8 + i] = second;
    found[16 + i] = third;
    found[24 + i] = fourth;
    (first | second) | (third | fourth)
}

// The flags of the 32 places from the first bit of the word on. The answer is 0 only if none stands.
pub fn look(tables: &[u64], word: u64, found: &mut [u64]) -> u64
    requires { (1024 ≤ length tables.now) × (32 ≤ length found.old) }
    ensures { Looked tables.now word found.old found.new result }
{
    let mut any = 0u64;
    for i in 0usize..8 {
        any |= four(tables, word << i, i, found);
    }
    any
}

// A bit for each of the 32 places with some flag, the first one lowest.
pub fn marks(found: &[u64]) -> u64
    requires { 32 ≤ length found.now }
    ensures { Marked found.now result }
{
    let mut m = 0u64;
    for e in (0usize..32).rev() {
        m = 2 * m + u64::from(found[e] != 0);
    }
    m
}
