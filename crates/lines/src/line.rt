// Printing of a line: the functions append to a page, bytes in a value of fixed size. A page has room, so each call
// prints its line; the contract of `Display` says nothing of a call that gives up.
ghost use Rattle.std.specs.Prelude.{◌≡◌, ◌+◌, ◌*◌, ◌^◌, ◌<◌, ◌≤◌, ◌++◌, length};
ghost use Rattle.arrayvec.specs.ArrayVec.{array_vec_len};
ghost use Rattle.lines.specs.Line.{name_of, numbers, accepted_line, refused_line};

use arrayvec::ArrayVec;
use itoa::Buffer;
use rules::Method;

// Appends bytes.
pub fn put<const N: usize>(page: &mut ArrayVec<u8, N>, bytes: &[u8])
    requires { array_vec_len page.old + length bytes.now ≤ N }
    ensures { page.new.items ≡ page.old.items ++ bytes.now }
{
    page.try_extend_from_slice(bytes).unwrap();
}

pub(crate) fn name_of(method: Method) -> &'static [u8]
    ensures { result.now ≡ name_of method }
{
    match method {
        Method::Plain => b"plain",
        Method::Hash => b"hash",
        Method::Skip => b"skip",
        Method::Wide => b"wide",
        Method::Tail => b"tail",
    }
}

// Appends each number, after a space.
fn put_numbers<const N: usize>(page: &mut ArrayVec<u8, N>, list: &[u32])
    requires { array_vec_len page.old + length list.now * 11 ≤ N }
    ensures is { page.new.items ≡ page.old.items ++ numbers list.now }
    ensures short { array_vec_len page.new ≤ array_vec_len page.old + length list.now * 11 }
{
    let mut digits = Buffer::new();
    for n in list {
        page.push(b' ');
        put(page, digits.format(*n).as_bytes());
    }
}

// Appends the line of an accepted call.
pub fn accepted<const N: usize>(
    page: &mut ArrayVec<u8, N>,
    method: Method,
    steps: u32,
    places: &[u32],
)
    requires { (length places.now < 2 ^ 32) × (array_vec_len page.old + 28 + length places.now * 11 ≤ N) }
    ensures is { page.new.items ≡ page.old.items ++ accepted_line method steps places.now }
    ensures short { array_vec_len page.new ≤ array_vec_len page.old + 28 + length places.now * 11 }
{
    put(page, name_of(method));
    put_numbers(page, &[steps, places.len() as u32]);
    put_numbers(page, places);
    page.push(b'\n');
}

// Appends the line of a refused call.
pub fn refused<const N: usize>(page: &mut ArrayVec<u8, N>, method: Method, number: u32)
    requires { array_vec_len page.old + 28 ≤ N }
    ensures is { page.new.items ≡ page.old.items ++ refused_line method number }
    ensures short { array_vec_len page.new ≤ array_vec_len page.old + 28 }
{
    put(page, name_of(method));
    put(page, b" refused");
    put_numbers(page, &[number]);
    page.push(b'\n');
}
