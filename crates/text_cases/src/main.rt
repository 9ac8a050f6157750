// Reads byte strings on standard input, each a line of hexadecimal digits, and writes each with its verdict for the code
// 1234: no text, wrong or right. Its input has the edges of RFC 3629's grammar and of White_Space, and digits in groups. What a
// program reads and writes is open to a contract: `print_verdict`, `case`, `cases` and `main` give back only that a read or a write
// failed, and the file `stdout` has what they write.
#![tactic(auto)]

ghost use Rattle.std.specs.Prelude.{◌≡◌, length};
ghost use Rattle.arrays.specs.Arrays.{padded};
ghost use Rattle.text_cases.specs.Cases.{nibble_of, pairs_in, bytes_of, verdict_of};

use std::io;

#[derive(Clone, Copy, PartialEq, Eq)]
enum Verdict {
    NoText,
    Wrong,
    Right,
}

// What a byte string is for the code 1234.
#[tactic(auto, unfolding(crate::specs::Cases::verdict_of))]
fn verdict_of(s: &[u8]) -> Verdict
    ensures { result ≡ verdict_of s.now }
{
    if !text::is_text(s) {
        Verdict::NoText
    } else if text::is_right(*b"123400000", 4, s) {
        Verdict::Right
    } else {
        Verdict::Wrong
    }
}

fn print_verdict(out: &impl Print, v: Verdict) -> io::Result<()> {
    match v {
        Verdict::NoText => out.println(" no text"),
        Verdict::Wrong => out.println(" wrong"),
        Verdict::Right => out.println(" right"),
    }
}

// The value of a digit; what is none counts as 0.
#[tactic(auto, unfolding(crate::specs::Cases::nibble_of))]
fn nibble(b: u8) -> u8
    ensures { result ≡ nibble_of b }
{
    hexadecimal::hex_value(b).unwrap_or(0)
}

// How many pairs of digits a line of `n` bytes has, at most 32.
#[tactic(auto, unfolding(crate::specs::Cases::pairs_in))]
fn pairs(n: usize) -> usize
    ensures { result ≡ pairs_in n }
{
    (n / 2).min(32)
}

// The bytes that the pairs of a line say, and zeros past them.
#[tactic(auto, using(crate::proofs::Laws::pairs_fit, crate::proofs::Laws::nibble_small))]
fn bytes_of(line: &[u8]) -> [u8; 32]
    ensures { result ≡ padded 32 0 (bytes_of line.now (pairs_in (length line.now))) }
{
    // Two bytes of the line for one of the array, so the places are counted.
    let mut bytes = [0; 32];
    for i in 0..pairs(line.len()) {
        bytes[i] = nibble(line[2 * i]) * 16 + nibble(line[2 * i + 1]);
    }
    bytes
}

#[tactic(auto, using(crate::proofs::Laws::pairs_fit))]
fn case(out: &impl Print, line: &[u8]) -> io::Result<()> {
    let bytes = bytes_of(line);
    let n = pairs(line.len());
    out.write_all(line)?;
    print_verdict(out, verdict_of(&bytes[..n]))
}

fn cases(out: &impl Print, s: &[u8]) -> io::Result<()> {
    for line in s.split_inclusive(|b| *b == b'\n') {
        case(out, line.strip_suffix(b"\n").unwrap_or(line))?;
    }
    Ok(())
}

fn main(rt: HostRuntime) -> io::Result<()> {
    let mut buf = [0u8; 4096];
    let n = input::read_input(&mut rt.stdin(), &mut buf)?;
    cases(&rt, &buf[..n])
}
