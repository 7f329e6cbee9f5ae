// What a call comes to, for one pattern and for a set.
use draws::judged::Judged;

// How a call stopped. A full list names the place that found no cell.
#[derive(Clone, Copy, PartialEq, Eq)]
pub(crate) enum Stop {
    Done,
    Full(usize),
    Spent,
}

// What an accepted call comes to: the steps, the occurrences written, or the pairs, the mark, and how it stopped.
#[derive(Clone, Copy, PartialEq, Eq)]
pub(crate) struct Run {
    pub steps: usize,
    pub hits: usize,
    pub mark: usize,
    pub stop: Stop,
}

// The occurrences that a call writes, or the pairs.
pub(crate) fn hits(call: Judged<Run>) -> usize {
    call.answer.map_or(0, |run| run.hits)
}

// The search's way to say how a call stopped.
pub(crate) fn stopped(stop: search::Stop) -> Stop {
    match stop {
        search::Stop::Done => Stop::Done,
        search::Stop::Full(p) => Stop::Full(p.0 as usize),
        search::Stop::Spent => Stop::Spent,
    }
}

// What the calls of a list come to: all that they wrote, their steps, the last mark, how the last accepted call stopped, and
// whether each did what it is to do.
#[derive(Clone, Copy)]
pub(crate) struct Total {
    pub hits: usize,
    pub steps: usize,
    pub mark: usize,
    pub stop: Option<Stop>,
    pub good: bool,
}

impl Total {
    // That of no call.
    pub(crate) fn new() -> Total {
        Total {
            hits: 0,
            steps: 0,
            mark: 0,
            stop: None,
            good: true,
        }
    }

    // A call more. One that is refused changes nothing.
    pub(crate) fn with(self, call: Judged<Run>) -> Total {
        let good = self.good && call.good;
        match call.answer {
            Ok(run) => Total {
                hits: self.hits.wrapping_add(run.hits),
                steps: self.steps.wrapping_add(run.steps),
                mark: run.mark,
                stop: Some(run.stop),
                good,
            },
            Err(_) => Total { good, ..self },
        }
    }

    // Whether the whole list is as one naive call from the first mark on, with as many steps as the last mark; the last
    // accepted call said done just if the search was over.
    pub(crate) fn is_as(self, all: Judged<Run>, over: bool) -> bool {
        let said = match self.stop {
            Some(stop) => (stop == Stop::Done) == over,
            None => true,
        };
        let same = match all.answer {
            Ok(run) => run.hits == self.hits && run.mark == self.mark,
            Err(_) => false,
        };
        self.good && all.good && same && said
    }
}
