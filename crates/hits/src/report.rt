// What the program prints: from the bytes of the input to a page, the bytes for the writer.
ghost use Rattle.std.specs.Prelude.{◌≡◌, ◌+◌, ◌-◌, ◌≤◌, [], ◌++◌};
ghost use Rattle.arrayvec.specs.ArrayVec.{array_vec_len};
ghost use Rattle.hits.specs.Printed.{fixed_pattern, search_line, five_lines, printed};
ghost use Rattle.hits.specs.Report.{number_in, places_most, pattern_most, line_most, printed_most};

use arrayvec::ArrayVec;
use lines::parse::Lines;
use lines::{line, pack, parse};
use search::{Answer, Mark, Method, Refusal};

// "budget 2^32 − 1"
const BUDGET: u32 = u32::MAX;

// A cell for each place, and the scratch that is enough for every method.
const CELLS: usize = 4096;

const SCRATCH: usize = 4222;

// The second run of the longest pattern: every bit is fixed.
const RUN: usize = 256;

// Five lines with 4,096 places each.
const PRINTED: usize = 225420;

// What is printed, with room for the longest.
pub(crate) type Page = ArrayVec<u8, PRINTED>;

// The methods in the order of their lines.
const METHODS: [Method; 5] = [
    Method::Plain,
    Method::Hash,
    Method::Skip,
    Method::Wide,
    Method::Tail,
];

// The number of a refused call; an accepted one has none. `let .. else` binds the accepted answer alone, so the number is asked
// of the whole outcome.
fn number_in(outcome: Result<Answer, Refusal>) -> u32
    ensures { result ≡ number_in outcome }
{
    match outcome {
        Ok(_) => 0,
        Err(why) => why.number(),
    }
}

// Searches the first n bits of the text for the pattern of m bits by one method, and appends its line. There are at most
// 4,096 places, and a cell for each; and the pattern has no more bits than any search takes.
fn search_line(text: &[u8], n: u64, pattern: &[u8], m: u64, method: Method, page: &mut Page)
    requires { (1 + n - m ≤ places_most) × (m ≤ pattern_most) × (array_vec_len page.old + line_most ≤ printed_most) }
    ensures is { page.new.items ≡ page.old.items ++ search_line (record { bytes = text.now; count = n }) (fixed_pattern pattern.now m) method }
    ensures short { array_vec_len page.new ≤ array_vec_len page.old + line_most }
{
    let mut list = [0u32; CELLS];
    let mut scratch = [0u64; SCRATCH];
    let fixed = [255u8; RUN];
    let outcome = Mark::new().search(
        text,
        n,
        pattern,
        &fixed,
        m,
        method,
        BUDGET,
        &mut list,
        &mut scratch,
    );
    let Ok(answer) = outcome else {
        line::refused(page, method, number_in(outcome));
        return;
    };
    let places = &list[..answer.occurrences as usize];
    line::accepted(page, method, answer.steps, places);
}

// Appends the lines of the five methods to an empty page.
fn five_lines(text: &[u8], n: u64, pattern: &[u8], m: u64, page: &mut Page)
    requires { (1 + n - m ≤ places_most) × (m ≤ pattern_most) × (page.old.items ≡ []) }
    ensures { page.new.items ≡ five_lines (record { bytes = text.now; count = n }) (fixed_pattern pattern.now m) }
{
    for method in METHODS {
        search_line(text, n, pattern, m, method, page);
    }
}

// Appends what is printed for the input, the five lines or that it is bad, to an empty page.
pub(crate) fn report(input: &[u8], page: &mut Page)
    requires { page.old.items ≡ [] }
    ensures { page.new.items ≡ printed input.now }
{
    let Some(Lines { pattern, text }) = parse::parse(input) else {
        line::put(page, b"bad input\n");
        return;
    };
    let pattern_bytes: ArrayVec<u8, 256> = pack::pack(pattern);
    let text_bytes: ArrayVec<u8, 512> = pack::pack(text);
    five_lines(
        text_bytes.as_slice(),
        text.len() as u64,
        pattern_bytes.as_slice(),
        pattern.len() as u64,
        page,
    );
}
