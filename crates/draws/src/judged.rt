// How a case is judged.

// A refusal, by its number in the documents' tables.
#[derive(Clone, Copy, PartialEq, Eq)]
pub struct Refused(pub u32);

// What a case comes to, and whether that is right.
#[derive(Clone, Copy)]
pub struct Judged<T> {
    pub good: bool,
    pub answer: Result<T, Refused>,
}
