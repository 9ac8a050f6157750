// UTF-8 (RFC 3629): the character that a string begins with.
#![tactic(auto)]

ghost use Rattle.std.specs.Prelude.{◌≡◌};
ghost use Rattle.utf8.specs.Utf8 as Utf8;
ghost use Rattle.utf8.specs.Utf8.{utf8_tail, utf8_2, utf8_3, utf8_4};
ghost use Rattle.utf8.specs.First.{first_char};

// The character that a string begins with: its code point and its number of bytes.
#[derive(Clone, Copy, PartialEq, Eq)]
pub struct Char {
    pub point: u32,
    pub size: usize,
}

// UTF8-tail.
#[tactic(auto, unfolding(crate::specs::Utf8::within))]
fn is_tail(a: u8) -> bool
    ensures { result ≡ utf8_tail a }
{
    matches!(a, 0x80..=0xBF)
}

// UTF8-2.
#[tactic(auto, unfolding(crate::specs::Utf8::within, crate::specs::Utf8::utf8_2))]
fn is_two(a: u8, b: u8) -> bool
    ensures { result ≡ utf8_2 a b }
{
    matches!(a, 0xC2..=0xDF) && is_tail(b)
}

// The first two octets of UTF8-3.
#[tactic(auto, unfolding(crate::specs::Utf8::within, crate::specs::Utf8::begins3))]
fn begins_three(a: u8, b: u8) -> bool
    ensures { result ≡ Utf8.begins3 a b }
{
    match a {
        0xE0 => matches!(b, 0xA0..=0xBF),
        0xED => matches!(b, 0x80..=0x9F),
        0xE1..=0xEF => is_tail(b),
        _ => false,
    }
}

// UTF8-3.
#[tactic(auto, unfolding(crate::specs::Utf8::utf8_3))]
fn is_three(a: u8, b: u8, c: u8) -> bool
    ensures { result ≡ utf8_3 a b c }
{
    begins_three(a, b) && is_tail(c)
}

// The first two octets of UTF8-4.
#[tactic(auto, unfolding(crate::specs::Utf8::within, crate::specs::Utf8::begins4))]
fn begins_four(a: u8, b: u8) -> bool
    ensures { result ≡ Utf8.begins4 a b }
{
    match a {
        0xF0 => matches!(b, 0x90..=0xBF),
        0xF1..=0xF3 => is_tail(b),
        0xF4 => matches!(b, 0x80..=0x8F),
        _ => false,
    }
}

// UTF8-4.
#[tactic(auto, unfolding(crate::specs::Utf8::utf8_4))]
fn is_four(a: u8, b: u8, c: u8, d: u8) -> bool
    ensures { result ≡ utf8_4 a b c d }
{
    begins_four(a, b) && is_tail(c) && is_tail(d)
}

// The first character, by the four forms of the grammar; none if what stands in front is no character.
#[tactic(auto, unfolding(crate::specs::First::first_char, crate::specs::First::first2, crate::specs::First::first3, crate::specs::First::first4))]
pub fn first_char(s: &[u8]) -> Option<Char>
    ensures { result ≡ first_char s.now }
{
    let (point, size) = match *s {
        [a @ 0..=0x7F, ..] => (u32::from(a), 1),
        [a, b, ..] if is_two(a, b) => (u32::from(a) % 32 * 64 + u32::from(b) % 64, 2),
        [a, b, c, ..] if is_three(a, b, c) => (
            u32::from(a) % 16 * 4096 + u32::from(b) % 64 * 64 + u32::from(c) % 64,
            3,
        ),
        [a, b, c, d, ..] if is_four(a, b, c, d) => (
            u32::from(a) % 8 * 262144
                + u32::from(b) % 64 * 4096
                + u32::from(c) % 64 * 64
                + u32::from(d) % 64,
            4,
        ),
        _ => return None,
    };
    Some(Char { point, size })
}
