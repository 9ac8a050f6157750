// Laying down text in lent memory. Each `put_` function writes over `out` from `at` on and answers the place
// after what it wrote; where something does not fit, a place past the end.
#![tactic(auto, unfolding(crate::specs::Page::text, crate::specs::Page::comma, crate::specs::Page::yes_no, crate::specs::Page::item, crate::specs::Page::flag, crate::specs::Page::known, crate::specs::Page::digits, crate::specs::Page::digit_from))]

ghost use Rattle.std.specs.Prelude.{◌≡◌, ◌<◌, take};
ghost use Rattle.replay_page.specs.Page.{page, text, number, bytes, yes_no, comma, item, flag, known, digits, digit_from, hexadecimal};

pub fn put_text(out: &mut [u8], at: usize, src: &[u8]) -> usize
    ensures { page out.new result ≡ text src.now (page out.old at) }
{
    if out.len() < at {
        return at;
    }
    if out.len() - at < src.len() {
        return out.len() + 1;
    }
    arrays::put(out, at, src);
    at + src.len()
}

// A number in decimal.
pub fn put_number(out: &mut [u8], at: usize, n: u64) -> usize
    ensures { page out.new result ≡ number n (page out.old at) }
{
    let mut digits = [0u8; 20];
    let k = decimal::put_decimal(&mut digits, 0, n);
    put_text(out, at, &digits[..k])
}

// Bytes in hexadecimal.
pub fn put_bytes(out: &mut [u8], at: usize, src: &[u8]) -> usize
    ensures { page out.new result ≡ bytes src.now (page out.old at) }
{
    if out.len() < at {
        return at;
    }
    if (out.len() - at) / 2 < src.len() {
        return out.len() + 1;
    }
    hexadecimal::put_hex(out, at, src);
    at + 2 * src.len()
}

// The first n bytes, or all if there are fewer.
pub fn put_first(out: &mut [u8], at: usize, src: &[u8], n: usize) -> usize
    ensures { page out.new result ≡ bytes (take n src.now) (page out.old at) }
{
    put_bytes(out, at, &src[..n.min(src.len())])
}

// The first n digits.
pub fn put_digits(out: &mut [u8], at: usize, code: &[u8], n: usize) -> usize
    ensures { page out.new result ≡ digits code.now n (page out.old at) }
{
    if n == 0 {
        put_text(out, at, b"-")
    } else {
        put_first(out, at, code, n)
    }
}

pub fn put_known(out: &mut [u8], at: usize, src: &[u8], yes: bool) -> usize
    ensures { page out.new result ≡ known yes src.now (page out.old at) }
{
    if yes {
        put_bytes(out, at, src)
    } else {
        put_text(out, at, b"none")
    }
}

pub fn put_yes_no(out: &mut [u8], at: usize, b: bool) -> usize
    ensures { page out.new result ≡ yes_no b (page out.old at) }
{
    if b {
        put_text(out, at, b"yes")
    } else {
        put_text(out, at, b"no")
    }
}

// A comma before every place of a list but the first.
pub fn put_comma(out: &mut [u8], at: usize, place: usize) -> usize
    ensures { page out.new result ≡ comma place (page out.old at) }
{
    if place == 0 {
        at
    } else {
        put_text(out, at, b",")
    }
}

pub fn put_item(out: &mut [u8], at: usize, key: &[u8], n: u64) -> usize
    ensures { page out.new result ≡ item key.now n (page out.old at) }
{
    let k = put_text(out, at, key);
    put_number(out, k, n)
}

pub fn put_flag(out: &mut [u8], at: usize, key: &[u8], b: bool) -> usize
    ensures { page out.new result ≡ flag key.now b (page out.old at) }
{
    let k = put_text(out, at, key);
    put_yes_no(out, k, b)
}

// The digit of a number for this unit, a power of 16, if the number has one.
fn put_digit(out: &mut [u8], at: usize, n: u32, unit: u32) -> usize
    requires { 0 < unit }
    ensures { page out.new result ≡ digit_from n unit (page out.old at) }
{
    if n < unit {
        at
    } else {
        let d = hexadecimal::hex_digit((n / unit % 16) as u8);
        put_text(out, at, &[d])
    }
}

// A number in hexadecimal, without leading zeros.
pub fn put_hexadecimal(out: &mut [u8], at: usize, n: u32) -> usize
    ensures { page out.new result ≡ hexadecimal n (page out.old at) }
{
    let mut k = at;
    for i in (1..8).rev() {
        k = put_digit(out, k, n, 16u32.pow(i));
    }
    let d = hexadecimal::hex_digit((n % 16) as u8);
    put_text(out, k, &[d])
}
