// The steps of the hash method. The value B at a mark is the last eight bits of the window there, and cell B of the table,
// which `hash_tables` makes, holds the move to the next mark. A mark's place is found just if the pattern stands there.
#![tactic(auto)]

ghost use Rattle.std.specs.Prelude.{◌≡◌, ◌<◌};
ghost use Rattle.rules.specs.Occurrence.{places};
ghost use Rattle.rules.specs.Step.{next};
ghost use Rattle.matcher.specs.Asked.{text_in, pattern_in};

use bits::{Place, load};
use matcher::query::Pattern;
use matcher::search::{Rule, Search};
use matcher::steps::{Full, Matcher, Reached};
use rules::Method;

// The hash method.
pub struct Hash;

impl Rule for Hash {
    ghost use Rattle.rules.specs.declared.Method.TheVariants as methods;

    ghost method = { methods.Hash };
}

// The next mark after s, cut at the number of places.
fn next_mark(search: &Search<Hash>, s: Place) -> Place
    requires { s.0 < places (text_in search.now.query) (pattern_in search.now.query) }
    ensures { result.0 ≡ next Method.Hash (text_in search.now.query) (pattern_in search.now.query) s.0 }
{
    let query = &search.query;
    let at = s.0;
    let v = load::byte_inside(query.text, Place(at + (query.pattern.m - 8)));
    let far = at + search.cells[v] as u32;
    Place(matcher::cut(far, query.n - query.pattern.m + 1))
}

impl Matcher for Hash {
    fn prepare(pattern: &Pattern, cells: &mut [u64]) {
        hash_tables::prepare(pattern, cells)
    }

    // The place is found just if the pattern stands there.
    fn step(search: &Search<Hash>, s: Place, list: &mut [u32]) -> Result<Reached, Full> {
        let at = next_mark(search, s);
        if !search.query.stands(s) {
            return Ok(Reached {
                at,
                steps: 1,
                hits: 0,
            });
        }
        if list.is_empty() {
            return Err(Full(Reached {
                at: s,
                steps: 0,
                hits: 0,
            }));
        }
        list[0] = s.0;
        Ok(Reached {
            at,
            steps: 1,
            hits: 1,
        })
    }

    // Each step moves on by the cell of the window's last eight bits, and its place is written if the pattern stands there.
    // Only where these bits agree with the pattern's last is the rest compared.
    fn advance(
        search: &Search<Hash>,
        s: Place,
        budget: u32,
        list: &mut [u32],
    ) -> Result<Reached, Full> {
        let query = &search.query;
        let end = query.n - query.pattern.m + 1;
        let back = query.pattern.m - 8;
        let last = load::byte_inside(query.pattern.bytes, Place(back));
        let care = load::byte_inside(query.pattern.fixed, Place(back));
        let mut at = s.0;
        let mut steps = 0u32;
        let mut hits = 0usize;
        while at < end && steps < budget {
            let v = load::byte_inside(query.text, Place(at + back));
            if (v ^ last) & care == 0 {
                if query.same(Place(at)) {
                    if list.len() <= hits {
                        return Err(Full(Reached {
                            at: Place(at),
                            steps,
                            hits,
                        }));
                    }
                    list[hits] = at;
                    hits += 1;
                }
            }
            steps += 1;
            at += search.cells[v] as u32;
        }
        Ok(Reached {
            at: Place(matcher::cut(at, end)),
            steps,
            hits,
        })
    }
}
