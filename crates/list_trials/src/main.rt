// Program `list_trials`: drawn lists of positions and drawn files against a naive writer and reader, drawn sittings against
// a naive marker, and named cases of both. It prints how many cases each kind has, each case that disagrees, and their
// count.
#![tactic(auto)]

mod codec;
mod files;
mod marker;
mod named;
mod named_sittings;
mod sittings;

use draws::draw::draw;
use draws::report;
use draws::report::Kind;
use std::io;

// What a case is made of.
#[derive(Clone, Copy)]
enum Cases {
    Written,
    Read,
    NamedFiles,
    Sittings,
    ManySheets,
    NamedSittings,
}

// Whether a case agrees, by its number and a drawn one.
fn agrees(cases: Cases, i: usize, x: usize) -> bool {
    match cases {
        Cases::Written => files::drawn_written(x),
        Cases::Read => files::drawn_read(x),
        Cases::NamedFiles => named::one(i, x),
        Cases::Sittings => sittings::drawn(draw(x, 0, 8), x),
        Cases::ManySheets => sittings::drawn(255 + draw(x, 0, 3), x),
        Cases::NamedSittings => named_sittings::one(i, x),
    }
}

const KINDS: [Kind<Cases>; 6] = [
    Kind {
        name: b"position lists written ",
        count: 60000,
        cases: Cases::Written,
    },
    Kind {
        name: b"position files read ",
        count: 60000,
        cases: Cases::Read,
    },
    Kind {
        name: b"named list files ",
        count: named::CASES,
        cases: Cases::NamedFiles,
    },
    Kind {
        name: b"sittings ",
        count: 60000,
        cases: Cases::Sittings,
    },
    Kind {
        name: b"sittings of 255 to 257 sheets ",
        count: 1000,
        cases: Cases::ManySheets,
    },
    Kind {
        name: b"named sittings ",
        count: named_sittings::CASES,
        cases: Cases::NamedSittings,
    },
];

fn main(rt: HostRuntime) -> io::Result<()> {
    report::all(&mut io::writer(&rt), &KINDS, agrees)
}
