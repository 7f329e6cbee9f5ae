// A pattern of more bits than a search takes: the comparisons at a place ask no bound of them.
ghost use Rattle.std.specs.Prelude.{◌^◌, ◌≤◌};

use crate::query::{Pattern, Query};
use bits::{ByteNo, Place, load};

// The pattern is the text's 4093 bits from here on.
const AT: Place = Place(803);

const M: u32 = 4093;

// A text whose last bytes are past the pattern and the loads that do not test for its end.
fn drawn() -> [u8; 640] {
    let mut text = [0; 640];
    for i in 0..640 {
        text[i] = (i.wrapping_mul(i) / 3 % 256) as u8;
    }
    text
}

fn cut_out(text: &[u8; 640]) -> [u8; 512] {
    let mut bytes = [0; 512];
    for i in 0..512 {
        let from = ByteNo(i).place();
        bytes[i] = load::byte_at(text, Place(AT.0 + from.0));
    }
    bytes
}

// Whether the pattern stands at a place, by either comparison, in the whole text and in one that ends with the
// byte of the pattern's last bit.
fn found(text: &[u8; 640], bytes: &[u8; 512], fixed: &[u8; 512], s: Place) -> [bool; 4]
    requires { s.0 ≤ 2 ^ 30 }
{
    let pattern = Pattern { bytes, fixed, m: M };
    let whole = Query::new(text, ByteNo(640).place().0, pattern);
    let short = Query::new(&text[..612], ByteNo(612).place().0, pattern);
    [
        whole.stands(s),
        whole.same(s),
        short.stands(s),
        short.same(s),
    ]
}

#[test]
fn a_long_pattern_stands_where_it_was_cut_out(rt: HostRuntime) {
    let text = drawn();
    let bytes = cut_out(&text);
    let fixed = [255; 512];
    for p in 0..5200 {
        assert_eq!(rt;
            found(&text, &bytes, &fixed, Place(p)),
            [p == AT.0; 4],
            "at {p}"
        );
    }
}

#[test]
fn a_bit_past_those_of_a_search_counts_where_it_is_fixed(rt: HostRuntime) {
    for bit in [0u32, 57, 2047, 2048, 3000, 4092] {
        let mut text = drawn();
        let bytes = cut_out(&text);
        let mut fixed = [255; 512];
        let turned = Place(AT.0 + bit);
        text[turned.byte().0] ^= 128 >> turned.offset();
        assert_eq!(rt; found(&text, &bytes, &fixed, AT), [false; 4], "bit {bit}");
        let wild = Place(bit);
        fixed[wild.byte().0] ^= 128 >> wild.offset();
        assert_eq!(rt; found(&text, &bytes, &fixed, AT), [true; 4], "bit {bit}");
    }
}
