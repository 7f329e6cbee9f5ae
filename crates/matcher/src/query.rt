// What a search asks: at which places of a text a pattern stands. A place is decided by 64 bits at a time: a load of the text
// is compared with one of the pattern where one of its second run has a 1. The text's bit count plays no part in it.
ghost use Rattle.std.specs.Prelude.{◌≤◌, ◌<◌};
ghost use Rattle.matcher.specs.Ready.{pattern_of, HeadOf};

use crate::compare::{front, same_where};
use bits::{ByteNo, Place, load};

// A pattern as it is lent: the bytes of its bits, those of its second run, which has a 0 where a bit is wild, and its bit
// count.
#[derive(Clone, Copy)]
pub struct Pattern<'a> {
    pub bytes: &'a [u8],
    pub fixed: &'a [u8],
    pub m: u32,
}

// A text and its bit count, a pattern, and the pattern's head. That is the first 57 bits, or all of a shorter pattern, at the
// left of a word: `mask` has a 1 for each of them that is fixed, and `head` its value there.
#[derive(Clone, Copy)]
pub struct Query<'a> {
    pub text: &'a [u8],
    pub n: u32,
    pub pattern: Pattern<'a>,
    pub head: u64,
    pub mask: u64,
    pub ghost some_bits: { 0 < pattern.m },
    pub ghost head_of: { HeadOf (pattern_of pattern.bytes.now pattern.fixed.now pattern.m) head mask },
}

impl<'a> Query<'a> {
    ghost use Rattle.std.specs.Prelude.{◌≡◌, ◌+◌, ◌/◌, ◌^◌, length};
    ghost use Rattle.bits.specs.Packed.{bytes_for};
    ghost use Rattle.rules.specs.Occurrence.{matches};
    ghost use Rattle.matcher.specs.Ready.{text_of};
    ghost use Rattle.matcher.specs.Asked.{pattern_in};

    // Takes the head from the pattern.
    pub fn new(text: &'a [u8], n: u32, pattern: Pattern<'a>) -> Query<'a>
        requires { 0 < pattern.m }
        ensures { (result.text ≡ text.entry) × (result.n ≡ n) × (result.pattern ≡ pattern.entry) }
    {
        let mask = load::word_near_end(pattern.fixed, ByteNo(0)) & front(pattern.m);
        Query {
            text,
            n,
            pattern,
            head: load::word_near_end(pattern.bytes, ByteNo(0)) & mask,
            mask,
        }
    }

    // Whether the pattern stands at s, by all of its bits, where no load needs a test for the end: the text goes on far enough
    // after them, and either run has its bytes. The last load overlaps the one before it. Bits are counted from the place's byte
    // on, so that a load's bit number fits 32 bits however long the pattern is.
    fn stands_inside(&self, s: Place) -> bool
        requires { (56 < self.now.pattern.m) × (s.0 ≤ 2 ^ 30) × (s.0 / 8 + self.now.pattern.m / 8 + 9 ≤ length self.now.text.now) × (bytes_for self.now.pattern.m ≤ length self.now.pattern.bytes.now) × (bytes_for self.now.pattern.m ≤ length self.now.pattern.fixed.now) }
        ensures { result ≡ matches (text_of self.now.text.now 0) (pattern_in self.now) s.0 }
    {
        let Pattern { bytes, fixed, m } = self.pattern;
        let text = &self.text[s.byte().0..];
        let at = s.offset();
        let last = bits::bytes_for(m as u64) as usize - 8;
        for load in 0..last.div_ceil(8) {
            let here = ByteNo(8 * load);
            let x = load::word_inside(text, Place(at + here.place().0));
            if !same_where(
                x,
                load::eight_bytes(bytes, here),
                load::eight_bytes(fixed, here),
                64,
            ) {
                return false;
            }
        }
        let here = ByteNo(last);
        let from = here.place().0;
        let x = load::word_inside(&text[last..], Place(at));
        same_where(
            x,
            load::eight_bytes(bytes, here),
            load::eight_bytes(fixed, here),
            m - from,
        )
    }

    // The same for a short pattern, and where the text ends sooner.
    fn stands_near_end(&self, s: Place) -> bool
        requires { s.0 ≤ 2 ^ 30 }
        ensures { result ≡ matches (text_of self.now.text.now 0) (pattern_in self.now) s.0 }
    {
        let Pattern { bytes, fixed, m } = self.pattern;
        if m <= 64 {
            return same_where(
                load::word_at(self.text, s),
                load::word_at(bytes, Place(0)),
                load::word_at(fixed, Place(0)),
                m,
            );
        }
        let from = s.byte().0.min(self.text.len());
        let text = &self.text[from..];
        let at = s.offset();
        for load in 0..(m - 1) / 64 {
            let p = Place(64 * load);
            let here = p.byte();
            let x = load::word_at(text, Place(at + p.0));
            if !same_where(
                x,
                load::word_at_byte(bytes, here),
                load::word_at_byte(fixed, here),
                64,
            ) {
                return false;
            }
        }
        let last = Place(m - 64);
        let x = load::word_at(text, Place(at + (m - 64)));
        same_where(
            x,
            load::word_at(bytes, last),
            load::word_at(fixed, last),
            64,
        )
    }

    // Whether the pattern stands at s.
    pub fn stands(&self, s: Place) -> bool
        requires { s.0 ≤ 2 ^ 30 }
        ensures { result ≡ matches (text_of self.now.text.now 0) (pattern_in self.now) s.0 }
    {
        let Pattern { bytes, fixed, m } = self.pattern;
        let count = bits::bytes_for(m as u64) as usize;
        if 56 < m
            && count <= bytes.len()
            && count <= fixed.len()
            && s.byte().0 + Place(m).byte().0 + 9 <= self.text.len()
        {
            return self.stands_inside(s);
        }
        self.stands_near_end(s)
    }

    // The same, for `same` alone: a call in its place keeps it small enough to be inlined. The query is copied for it, so that a
    // caller that makes a query for one place stores it only where the first load does not rule the place out.
    fn rest(self, s: Place) -> bool
        requires { s.0 ≤ 2 ^ 30 }
        ensures { result ≡ matches (text_of self.entry.text.now 0) (pattern_in self.entry) s.0 }
    {
        self.stands(s)
    }

    // And for a hot loop: one load rules most places out, and `stands`, which is called and not inlined since other
    // code uses it too, settles the others.
    pub fn same(&self, s: Place) -> bool
        requires { s.0 ≤ 2 ^ 30 }
        ensures { result ≡ matches (text_of self.now.text.now 0) (pattern_in self.now) s.0 }
    {
        if s.byte().0 + 8 <= self.text.len() {
            if load::head_inside(self.text, s) & self.mask != self.head {
                return false;
            }
            if self.pattern.m <= 57 {
                return true;
            }
        }
        self.rest(s)
    }
}
