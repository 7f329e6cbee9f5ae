// The lines that a program of trials prints.
ghost use Rattle.std.specs.Prelude.{◌≡◌, ℕ, ◌≤◌, List, [], ◌∷◌, ◌++◌, OnOk, IfOk, codes, decimal};
ghost use Rattle.std.specs.Io.KnownBytes.{Appends};
ghost use Rattle.draws.specs.Growing.{Grows, EndsWith};

use crate::draw;
use std::io;
use std::io::Write;

// Prints a name and a count.
pub fn line<W: Write>(out: &mut W, name: &[u8], count: usize) -> io::Result<()>
    ensures { OnOk result (Appends (W.contents out.old) (W.contents out.new) (name.now ++ (decimal count ++ (10 ∷ [])))) }
{
    out.write_all(name)?;
    out.writeln(count)
}

// A kind of cases: its name, with the space that follows it in a line, how many cases it has, and which they are.
#[derive(Clone, Copy)]
pub struct Kind<C> {
    pub name: &'static [u8],
    pub count: usize,
    pub cases: C,
}

// Prints a case that disagrees, by its kind's name and its number, so that it can be found again.
fn disagreement<W: Write>(out: &mut W, kind: &[u8], case: usize) -> io::Result<()>
    ensures { OnOk result (Appends (W.contents out.old) (W.contents out.new) (codes "disagreement: " ++ (kind.now ++ (codes "case " ++ (decimal case ++ (10 ∷ [])))))) }
{
    out.write_all(b"disagreement: ")?;
    out.write_all(kind)?;
    line(out, b"case ", case)
}

// The first number that a kind of cases draws; the next kinds have the next ones.
const SEED: usize = 88172645463325252;

// Prints the line of a kind, which has this number, and each of its cases that disagrees: the answer is how many these are.
// `agrees` is told which cases they are, the number of one and a drawn number.
fn many<W: Write, C: Copy, F: Fn(C, usize, usize) -> bool>(
    out: &mut W,
    kind: &Kind<C>,
    number: usize,
    agrees: F,
) -> io::Result<usize>
    requires { F.IsAlwaysCallable agrees }
    ensures grows { OnOk result (Grows (W.contents out.old) (W.contents out.new)) }
    ensures few { IfOk result (λ wrong. wrong ≤ kind.now.count) }
    ensures quiet { IfOk result (λ wrong. wrong ≡ 0 → Appends (W.contents out.old) (W.contents out.new) (kind.now.name.now ++ (decimal kind.now.count ++ (10 ∷ [])))) }
{
    line(out, kind.name, kind.count)?;
    let mut wrong = 0;
    let mut x = SEED.wrapping_add(number);
    for case in 0..kind.count {
        x = draw::next(x);
        if !agrees(kind.cases, case, x) {
            disagreement(out, kind.name, case)?;
            wrong += 1;
        }
    }
    Ok(wrong)
}

// Runs the cases of all kinds and prints how many disagree.
pub fn all<W: Write, C: Copy, F: Fn(C, usize, usize) -> bool>(
    out: &mut W,
    kinds: &[Kind<C>],
    agrees: F,
) -> io::Result<()>
    requires { F.IsAlwaysCallable agrees }
    ensures { OnOk result ((wrong : ℕ) × EndsWith (W.contents out.old) (W.contents out.new) (codes "disagreements " ++ (decimal wrong ++ (10 ∷ [])))) }
{
    let mut wrong: usize = 0;
    for (number, kind) in kinds.iter().enumerate() {
        let more = many(out, kind, number, &agrees)?;
        wrong = wrong.saturating_add(more);
    }
    line(out, b"disagreements ", wrong)
}
