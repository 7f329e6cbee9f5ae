// A search by one method, when its tables are made.
ghost use Rattle.matcher.specs.Ready.{text_of, pattern_of, Ready, ready_prop};

use crate::query::Query;
use std::marker::PhantomData;

// The method whose rule a type follows. The type has no value: it is named where a method is chosen.
pub trait Rule {
    ghost use Rattle.rules.specs.declared.Method.{Method};

    ghost method: { Method };
}

// What the steps of a method look at: what the search asks, and the tables. Text and pattern have passed the refusals, the
// pattern fits into the text, and the tables are those of the method.
#[derive(Drop)]
pub struct Search<'a, M: Rule> {
    pub query: Query<'a>,
    pub cells: &'a [u64],
    pub of: PhantomData<M>,
    pub ghost ready: { Ready M.method (text_of query.text.now query.n) (pattern_of query.pattern.bytes.now query.pattern.fixed.now query.pattern.m) cells.now } by { ready_prop M.method (text_of query.text.now query.n) (pattern_of query.pattern.bytes.now query.pattern.fixed.now query.pattern.m) cells.now },
}
