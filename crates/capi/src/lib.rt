// The library's calls on numbers and slices, for C and for Rust: a slice is a pointer and then a length there
// (include/mitongory.h). Each call takes any input and returns 0, or the number of a refusal. An accepted call stores what it
// tells to the front of `answer`; a refused one changes nothing. What each call promises is in specs/.
#![tactic(auto)]

mod cells;
mod eight_bits;
mod lists;
mod pattern_set;
mod scan;
mod sitting;
mod version;

// Two results that document 01 does not have: its calls take a method and not a number, and give an answer back.
const UNKNOWN_METHOD: u32 = 100;

const ANSWER_CELLS_MISSING: u32 = 101;
