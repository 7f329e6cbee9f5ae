// Parsing of the input: two lines of the characters 0 and 1.
ghost use Rattle.std.specs.Prelude.{◌≡◌, [], ◌∷◌, ◌++◌, map, MatchOption, IfSome};
ghost use Rattle.std.specs.List.{prefix_len};
ghost use Rattle.lines.specs.Input.{is_digit, bit_of, read_line, no_line, line, fits};
ghost use Rattle.lines.specs.Input.{parse as Input·parse};
ghost use Rattle.lines.specs.Inner.{input_in, Sized};

// The byte that ends a line.
const LINE_END: u8 = b'\n';

// The two lines of good input, without the bytes that end them.
#[derive(Clone, Copy)]
pub struct Lines<'a> {
    pub pattern: &'a [u8],
    pub text: &'a [u8],
}

// How many characters 0 and 1 stand in front.
fn count_digits(s: &[u8]) -> usize
    ensures { result ≡ prefix_len is_digit s.now }
{
    s.iter().take_while(|c| matches!(**c, b'0' | b'1')).count()
}

// The first line, and the bytes after its byte 10: none where another byte ends the characters 0 and 1, or no byte.
fn split_line(s: &[u8]) -> Option<(&[u8], &[u8])>
    ensures is { MatchOption result (read_line s.now ≡ no_line) (λ p. read_line s.now ≡ line (map bit_of p.0.now) p.1.now) }
    ensures parts { IfSome result (λ p. s.now ≡ p.0.now ++ (10 ∷ p.1.now)) }
{
    let (line, rest) = s.split_at(count_digits(s));
    let Some((end, rest)) = rest.split_first() else {
        return None; // the bytes end before the line does
    };
    if *end == LINE_END {
        Some((line, rest))
    } else {
        None
    }
}

// Whether a pattern of m bits and a text of n bits are taken.
fn fit(m: usize, n: usize) -> bool
    ensures { result ≡ fits m n }
{
    1 <= m && m <= 2048 && n <= 4096
}

// The two lines of the whole input, where it is good.
pub fn parse(s: &[u8]) -> Option<Lines<'_>>
    ensures is { input_in result ≡ Input·parse s.now }
    ensures sized { Sized s.now result }
    ensures parts { IfSome result (λ l. s.now ≡ l.pattern.now ++ (10 ∷ (l.text.now ++ (10 ∷ [])))) }
{
    let (pattern, rest) = split_line(s)?;
    let (text, after) = split_line(rest)?;
    if after.is_empty() && fit(pattern.len(), text.len()) {
        Some(Lines { pattern, text })
    } else {
        None
    }
}
