// What the methods share: what a search asks, the comparison at a place, words for wild bits, and what a method is. A method is
// a crate of its own whose type implements `Matcher`: `prepare` makes its tables, `step` makes one step from any mark, and
// `advance` makes many.
#![tactic(auto)]

pub mod compare;
pub mod query;
pub mod search;
pub mod steps;
#[cfg(test)]
mod tests;
pub mod wild;

ghost use Rattle.std.specs.Prelude.{◌≡◌, min};

// A mark cut down to the number of places.
pub fn cut(mark: u32, places: u32) -> u32
    ensures { result ≡ min mark places }
{
    mark.min(places)
}
