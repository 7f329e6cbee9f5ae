// Program `trials`: drawn calls of every kind against a naive search, and the named cases of documents 01 and 02. It
// prints how many cases each kind has, each case that disagrees, and their count.
#![tactic(auto)]

mod call;
mod calls;
mod drawn;
mod naive;
mod naive_set;
mod named;
mod rows;
mod run;
mod set_call;
mod sets;
mod single;
mod wild;

use draws::report::Kind;
use draws::{packed, report};
use search::Method;
use std::io;

// What the cases of a kind are; a flag says whether patterns have wild bits.
#[derive(Clone, Copy)]
enum Cases {
    Whole(Method, bool),
    Calls(bool),
    Refusals(bool),
    EightBits,
    EveryEight,
    HashValue(bool),
    EachLength(bool),
    FreeBits,
    Named,
    Sets(sets::Kind),
}

// Whether a case agrees, by its number and a drawn one, over a buffer of drawn bytes and a list. Named cases and sets have
// buffers of their own.
fn agrees(cases: Cases, i: usize, x: usize) -> bool {
    let mut s = [0u8; packed::BYTES];
    let mut list = [0u32; drawn::CELLS];
    packed::fill(&mut s, x);
    match cases {
        Cases::Whole(method, wild) => drawn::whole(method, wild, x, &mut s, &mut list),
        Cases::Calls(wild) => drawn::twelve_calls(wild, x, &mut s, &mut list),
        Cases::Refusals(wild) => drawn::refusals(wild, i, x, &mut s, &mut list),
        Cases::EightBits => single::eight_bits(x, &mut s),
        Cases::EveryEight => single::every_eight(i, &mut s),
        Cases::HashValue(wild) => single::drawn_hash(wild, x, &mut s),
        Cases::EachLength(wild) => drawn::every_length(wild, i, x, &mut s, &mut list),
        Cases::FreeBits => drawn::free_bits(i, x, &mut s, &mut list),
        Cases::Named => named::one(i, x),
        Cases::Sets(kind) => sets::one(kind, x),
    }
}

const KINDS: [Kind<Cases>; 26] = [
    Kind {
        name: b"plain, whole ",
        count: 30000,
        cases: Cases::Whole(Method::Plain, false),
    },
    Kind {
        name: b"hash, whole ",
        count: 30000,
        cases: Cases::Whole(Method::Hash, false),
    },
    Kind {
        name: b"skip, whole ",
        count: 30000,
        cases: Cases::Whole(Method::Skip, false),
    },
    Kind {
        name: b"wide, whole ",
        count: 30000,
        cases: Cases::Whole(Method::Wide, false),
    },
    Kind {
        name: b"tail, whole ",
        count: 30000,
        cases: Cases::Whole(Method::Tail, false),
    },
    Kind {
        name: b"lists of twelve calls ",
        count: 10000,
        cases: Cases::Calls(false),
    },
    Kind {
        name: b"refusals and their neighbours ",
        count: drawn::ROWS,
        cases: Cases::Refusals(false),
    },
    Kind {
        name: b"eight bits ",
        count: 40000,
        cases: Cases::EightBits,
    },
    Kind {
        name: b"H ",
        count: 40000,
        cases: Cases::HashValue(false),
    },
    Kind {
        name: b"each length, exact scratch ",
        count: drawn::LENGTHS,
        cases: Cases::EachLength(false),
    },
    Kind {
        name: b"named ",
        count: named::CASES,
        cases: Cases::Named,
    },
    Kind {
        name: b"plain, wild bits ",
        count: 10000,
        cases: Cases::Whole(Method::Plain, true),
    },
    Kind {
        name: b"hash, wild bits ",
        count: 10000,
        cases: Cases::Whole(Method::Hash, true),
    },
    Kind {
        name: b"skip, wild bits ",
        count: 10000,
        cases: Cases::Whole(Method::Skip, true),
    },
    Kind {
        name: b"wide, wild bits ",
        count: 10000,
        cases: Cases::Whole(Method::Wide, true),
    },
    Kind {
        name: b"tail, wild bits ",
        count: 10000,
        cases: Cases::Whole(Method::Tail, true),
    },
    Kind {
        name: b"twelve calls, wild bits ",
        count: 3000,
        cases: Cases::Calls(true),
    },
    Kind {
        name: b"refusals, wild bits ",
        count: drawn::ROWS,
        cases: Cases::Refusals(true),
    },
    Kind {
        name: b"bits that do not matter ",
        count: 4000,
        cases: Cases::FreeBits,
    },
    Kind {
        name: b"H, wild bits ",
        count: 20000,
        cases: Cases::HashValue(true),
    },
    Kind {
        name: b"each length, wild bits ",
        count: drawn::LENGTHS,
        cases: Cases::EachLength(true),
    },
    Kind {
        name: b"sets, whole ",
        count: 4000,
        cases: Cases::Sets(sets::Kind::Whole),
    },
    Kind {
        name: b"sets, lists of twelve calls ",
        count: 1500,
        cases: Cases::Sets(sets::Kind::Calls),
    },
    Kind {
        name: b"sets, refusals, neighbours ",
        count: 4000,
        cases: Cases::Sets(sets::Kind::Refusals),
    },
    Kind {
        name: b"sets, one pattern as plain ",
        count: 3000,
        cases: Cases::Sets(sets::Kind::OnePattern),
    },
    Kind {
        name: b"eight bits, each n up to 70 ",
        count: single::EIGHTS,
        cases: Cases::EveryEight,
    },
];

fn main(rt: HostRuntime) -> io::Result<()> {
    report::all(&mut io::writer(&rt), &KINDS, agrees)
}
