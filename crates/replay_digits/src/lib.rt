// What digits and text say: numbers and bytes.
#![tactic(auto)]

ghost use Rattle.std.specs.Prelude.{◌≡◌, true, ◌+◌, ◌/◌, ◌<◌, ◌≤◌, length};
ghost use Rattle.arrays.specs.Arrays.{put};
ghost use Rattle.replay_digits.specs.Digits.{digit_of, number_in, is_hex, pairs_of, is_text, is_bytes, as_bytes, laid_to, lay_bytes};

// How bytes may be written: as pairs of hexadecimal digits alone, or as text too.
#[derive(Clone, Copy, PartialEq, Eq)]
pub enum Written {
    Hex,
    HexOrText,
}

// The value of a digit, up to 15; 16 if it is none, as `number_in`'s definition counts it for a base above 16.
#[tactic(auto, unfolding(crate::specs::Digits::digit_of))]
fn digit(b: u8) -> u8
    ensures { result ≡ digit_of b }
{
    hexadecimal::hex_value(b).unwrap_or(16)
}

// The number that digits of this base, at most 16, make; none above `most`.
pub fn number_in(s: &[u8], base: u64, most: u64) -> Option<u64>
    requires { 0 < base }
    ensures { result ≡ number_in base most s.now }
{
    if s.is_empty() {
        return None;
    }
    let mut v: u64 = 0;
    for b in s {
        let d = u64::from(digit(*b));
        if base <= d {
            return None;
        }
        v = v.checked_mul(base)?.checked_add(d)?;
        if most < v {
            return None;
        }
    }
    Some(v)
}

// Whether these are hexadecimal digits in pairs.
#[tactic(auto, unfolding(crate::specs::Digits::is_hex))]
pub fn is_hex(s: &[u8]) -> bool
    ensures { result ≡ is_hex s.now }
{
    s.len() % 2 == 0 && s.iter().all(|b| digit(*b) < 16)
}

// Writes the bytes that the pairs make over `out` from `at` on.
pub fn put_pairs(s: &[u8], out: &mut [u8], at: usize)
    requires { (is_hex s.now ≡ true) × (at + length s.now / 2 ≤ length out.old) }
    ensures { out.new ≡ put out.old at (pairs_of s.now) }
{
    for i in 0..s.len() / 2 {
        let high = digit(s[2 * i]);
        let low = digit(s[2 * i + 1]);
        out[at + i] = high * 16 + low;
    }
}

// Whether this is a text where one may stand: an apostrophe, and then the bytes as they are.
fn is_text(s: &[u8], form: Written) -> bool
    ensures { result ≡ is_text form s.now }
{
    form == Written::HexOrText && s.starts_with(b"'")
}

// Whether these are bytes: such a text, or hexadecimal digits in pairs.
#[tactic(auto, unfolding(crate::specs::Digits::is_bytes))]
pub fn is_bytes(s: &[u8], form: Written) -> bool
    ensures { result ≡ is_bytes form s.now }
{
    is_text(s, form) || is_hex(s)
}

// How many bytes they are.
#[tactic(auto, using(crate::proofs::Laws::pairs_length), unfolding(crate::specs::Digits::as_bytes))]
pub fn byte_count(s: &[u8], form: Written) -> usize
    ensures { result ≡ length (as_bytes form s.now) }
{
    if is_text(s, form) {
        s.len() - 1
    } else {
        s.len() / 2
    }
}

// Writes them over `out` from `at` on.
#[tactic(auto, using(crate::proofs::Laws::pairs_length), unfolding(crate::specs::Digits::as_bytes, crate::specs::Digits::is_bytes))]
pub fn put_bytes(s: &[u8], form: Written, out: &mut [u8], at: usize)
    requires { (is_bytes form s.now ≡ true) × (at + length (as_bytes form s.now) ≤ length out.old) }
    ensures { out.new ≡ put out.old at (as_bytes form s.now) }
{
    if is_text(s, form) {
        arrays::put(out, at, &s[1..]);
    } else {
        put_pairs(s, out, at);
    }
}

// Writes the bytes that `s` says over `out` from `at` on, if it says bytes and they fit, and answers the place after them;
// otherwise writes nothing.
#[tactic(auto, unfolding(crate::specs::Digits::fits_in, crate::specs::Digits::laid_to, crate::specs::Digits::lay_bytes))]
pub fn bytes(s: &[u8], form: Written, out: &mut [u8], at: usize) -> Option<usize>
    ensures place { result ≡ laid_to form s.now at (length out.old) }
    ensures written { out.new ≡ lay_bytes form s.now at out.old }
{
    let end = at.checked_add(byte_count(s, form))?;
    if out.len() < end || !is_bytes(s, form) {
        return None;
    }
    put_bytes(s, form, out, at);
    Some(end)
}
