// The tables of a search for a set of patterns: made by the module `tables`, and asked by `scan` which patterns may stand at a
// place.
#![tactic(auto)]

pub mod scan;
pub mod tables;

// A set of patterns as it is lent: the bytes of their bits, one pattern after the other, each from a byte of its own on; those
// of the second run, laid out alike; and the bit count of each.
#[derive(Clone, Copy)]
pub struct Patterns<'a> {
    pub bytes: &'a [u8],
    pub fixed: &'a [u8],
    pub counts: &'a [u64],
}
