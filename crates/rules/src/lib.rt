// The five ways to search for a pattern of bits in a packed text, as rules: what a step of each finds and how far it
// moves, the machine that makes the steps, and how many cells the tables of each take. All of it is in specs/, and the
// theorems about it are in proofs/; of code there is only what tells those cells.
#![tactic(auto)]

ghost use Rattle.std.specs.Prelude.{◌≡◌};
ghost use Rattle.rules.specs.Scratch.{scratch_cells};

// The five ways to the next mark.
#[derive(Clone, Copy, PartialEq, Eq, Debug)]
pub enum Method {
    Plain,
    Hash,
    Skip,
    Wide,
    Tail,
}

impl Method {
    // How many cells of scratch the method takes for a pattern of m bits.
    pub fn scratch_cells(self, m: u32) -> u64
        ensures { result ≡ scratch_cells self m }
    {
        let k = u64::from(m);
        match self {
            Method::Plain => 16 * bits::bytes_for(k + 7),
            Method::Hash => 512,
            Method::Skip => 256 + k,
            Method::Wide => 2 * (63 + k),
            Method::Tail => 2,
        }
    }
}
