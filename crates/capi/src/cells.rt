// An accepted call stores its numbers, one to four, to the first answer cells, and returns 0. A function for each count, and not
// one over an array, since no function that a search for one pattern runs may have an array.
ghost use Rattle.std.specs.Prelude.{[], ◌∷◌, ◌≤◌, length};
ghost use Rattle.capi.specs.Told.{gives, Tells};

pub(crate) fn one(answer: &mut [u64], a: u64) -> u32
    requires { 1 ≤ length answer.old }
    ensures { Tells (gives (a ∷ [])) answer.old result answer.new }
{
    answer[0] = a;
    0
}

pub(crate) fn two(answer: &mut [u64], a: u64, b: u64) -> u32
    requires { 2 ≤ length answer.old }
    ensures { Tells (gives (a ∷ b ∷ [])) answer.old result answer.new }
{
    answer[0] = a;
    answer[1] = b;
    0
}

pub(crate) fn three(answer: &mut [u64], a: u64, b: u64, c: u64) -> u32
    requires { 3 ≤ length answer.old }
    ensures { Tells (gives (a ∷ b ∷ c ∷ [])) answer.old result answer.new }
{
    answer[0] = a;
    answer[1] = b;
    answer[2] = c;
    0
}

pub(crate) fn four(answer: &mut [u64], a: u64, b: u64, c: u64, d: u64) -> u32
    requires { 4 ≤ length answer.old }
    ensures { Tells (gives (a ∷ b ∷ c ∷ d ∷ [])) answer.old result answer.new }
{
    answer[0] = a;
    answer[1] = b;
    answer[2] = c;
    answer[3] = d;
    0
}
