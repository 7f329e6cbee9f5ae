// What the test programs share, and nothing else uses: numbers from fixed generators, and buffers of cells and of packed bits
// that are filled, written and read back. Nothing here calls the library that is tested, and no function stops on any
// input: what lies out of range is read as 0 and not written.
#![tactic(auto)]

pub mod cells;
pub mod draw;
pub mod judged;
pub mod number;
pub mod packed;
pub mod report;
