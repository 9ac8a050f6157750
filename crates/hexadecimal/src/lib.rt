// Hexadecimal digits: bytes written in lower case, and the value of one digit.
#![tactic(auto)]

ghost use Rattle.std.specs.Prelude.{◌≡◌, ◌+◌, ◌*◌, ◌%◌, ◌≤◌, length};
ghost use Rattle.arrays.specs.Arrays.{put};
ghost use Rattle.hexadecimal.specs.Hex.{digit, hex_of, value_of};

// The digit of the low four bits of `n`, in lower case.
#[tactic(auto, unfolding(crate::specs::Hex::digit))]
pub fn hex_digit(n: u8) -> u8
    ensures { result ≡ digit (n % 16) }
{
    match n % 16 {
        d @ 0..=9 => b'0' + d,
        d => b'a' - 10 + d,
    }
}

// The value of the digit `b`, in either case; none if it is no digit.
#[tactic(auto, unfolding(crate::specs::Hex::value_of))]
pub fn hex_value(b: u8) -> Option<u8>
    ensures { result ≡ value_of b }
{
    match b {
        b'0'..=b'9' => Some(b - b'0'),
        b'A'..=b'F' => Some(b - b'A' + 10),
        b'a'..=b'f' => Some(b - b'a' + 10),
        _ => None,
    }
}

// Writes two digits for each byte of `src` over `dst` from `at` on; the rest of `dst` stays.
pub fn put_hex(dst: &mut [u8], at: usize, src: &[u8])
    requires { at + 2 * length src.now ≤ length dst.old }
    ensures { dst.new ≡ put dst.old at (hex_of src.now) }
{
    for (i, b) in src.iter().enumerate() {
        let place = at + 2 * i;
        dst[place] = hex_digit(*b / 16);
        dst[place + 1] = hex_digit(*b);
    }
}
