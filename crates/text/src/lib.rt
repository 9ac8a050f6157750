// A typed code: whether it is text, and whether it is right once White_Space is trimmed and separators between digits are dropped.
#![tactic(auto)]

ghost use Rattle.std.specs.Prelude.{◌≡◌, ◌<◌, ◌≤◌, true, false, take, MatchOption};
ghost use Rattle.arrays.specs.Arrays.{same_bytes};
ghost use Rattle.text.specs.Text.{white, is_text, trimmed, is_digit, is_separator, begins_digit, is_dropped, ungrouped, right};
ghost use Rattle.text.specs.Steps.{first_ten, pushed};

use utf8::Char;

// What is left of a text without separators, as far as ten bytes: one more than the longest code has. No heap, so the bytes
// stand in an array with their number beside it.
#[derive(Clone, Copy)]
struct Grouped {
    bytes: [u8; 10],
    len: usize,
}

impl Grouped {
    // One byte more.
    fn push(&mut self, b: u8)
        requires { self.old.len < 10 }
        ensures { self.new ≡ pushed self.old b }
    {
        self.bytes[self.len] = b;
        self.len += 1;
    }

    // The bytes in use.
    fn as_slice(&self) -> &[u8]
        requires { self.now.len ≤ 10 }
        ensures { result.now ≡ take self.now.len self.now.bytes }
    {
        &self.bytes[..self.len]
    }
}

// The 25 code points of White_Space.
#[tactic(auto, unfolding(crate::specs::Text::white, utf8::specs::Utf8::within))]
fn is_white(c: u32) -> bool
    ensures { result ≡ white c }
{
    matches!(c, 9..=13 | 32 | 133 | 160 | 5760 | 8192..=8202 | 8232 | 8233 | 8239 | 8287 | 12288)
}

// A text without the White_Space at both ends; none if s is no text.
fn trim(s: &[u8]) -> Option<&[u8]>
    ensures { MatchOption result (is_text s.now ≡ false) (λ t. (is_text s.now ≡ true) × (trimmed s.now ≡ t.now)) }
{
    let mut start = 0;
    let mut end = 0;
    let mut at = 0;
    // A character has up to four bytes, and `at` goes on by as many.
    while at < s.len() {
        let Char { point, size } = utf8::first_char(&s[at..])?;
        at += size;
        if !is_white(point) {
            end = at;
        } else if start == end {
            start = at;
            end = at;
        }
    }
    Some(&s[start..end])
}

// A digit, as a draw gives it. Its contract has the definition `is_digit`, for the two tests that call it.
#[tactic(auto, unfolding(crate::specs::Text::is_digit, utf8::specs::Utf8::within))]
fn is_digit(b: u8) -> bool
    ensures { result ≡ is_digit b }
{
    b.is_ascii_digit()
}

// A space or a hyphen.
#[tactic(auto, unfolding(crate::specs::Text::is_separator))]
fn is_separator(b: u8) -> bool
    ensures { result ≡ is_separator b }
{
    matches!(b, b' ' | b'-')
}

#[tactic(auto, unfolding(crate::specs::Text::begins_digit))]
fn begins_digit(s: &[u8]) -> bool
    ensures { result ≡ begins_digit s.now }
{
    match *s {
        [b, ..] => is_digit(b),
        [] => false,
    }
}

// Whether b is one separator between two digits: `behind` of a digit, and before the first of s.
#[tactic(auto, unfolding(crate::specs::Text::is_dropped))]
fn is_dropped(behind: bool, b: u8, s: &[u8]) -> bool
    ensures { result ≡ is_dropped behind b s.now }
{
    behind && is_separator(b) && begins_digit(s)
}

// What is left of s once separators between digits are dropped, as far as ten bytes.
fn ungroup(s: &[u8]) -> Grouped
    ensures { result ≡ first_ten (ungrouped s.now) }
{
    let mut kept = Grouped {
        bytes: [0; 10],
        len: 0,
    };
    let mut behind = false;
    for (i, b) in s.iter().enumerate() {
        if kept.len == 10 {
            break;
        }
        if !is_dropped(behind, *b, &s[i + 1..]) {
            kept.push(*b);
        }
        behind = is_digit(*b);
    }
    kept
}

// Whether two byte strings are equal. It looks at every byte, wherever the first difference is.
fn same_all(a: &[u8], b: &[u8]) -> bool
    ensures { result ≡ same_bytes a.now b.now }
{
    if a.len() != b.len() {
        return false;
    }
    let mut differ = 0;
    for (x, y) in a.iter().zip(b) {
        differ |= x ^ y;
    }
    differ == 0
}

// Whether a trimmed text, ungrouped, is the first n bytes of the code.
fn is_code(code: [u8; 9], n: usize, s: &[u8]) -> bool
    ensures { result ≡ same_bytes (ungrouped s.now) (take n code) }
{
    same_all(ungroup(s).as_slice(), &code[..n.min(9)])
}

// Whether s is UTF-8.
pub fn is_text(s: &[u8]) -> bool
    ensures { result ≡ is_text s.now }
{
    trim(s).is_some()
}

// Whether s is text and, trimmed and ungrouped, the first n bytes of the code.
#[tactic(auto, unfolding(crate::specs::Text::right))]
pub fn is_right(code: [u8; 9], n: usize, s: &[u8]) -> bool
    ensures { result ≡ right code n s.now }
{
    trim(s).is_some_and(|t| is_code(code, n, t))
}
