// Reads a record on standard input and writes it as the version that the argument names, 1 or 2. What is written is what
// `converter::convert_phone_validations` lays down for what was read; of a refusal, its number and name stand on standard error. What a
// program reads and writes is open to a contract: functions that read or write give nothing back.
#![tactic(auto)]

ghost use Rattle.std.specs.Prelude.{◌≡◌};
ghost use Rattle.convert.specs.Arguments.{target_of};

use std::io::{Error, Read};

// The version that is asked for.
#[derive(Clone, Copy, PartialEq, Eq)]
enum Version {
    One,
    Two,
}

#[tactic(auto, using(crate::proofs::Arguments::asks_one, crate::proofs::Arguments::asks_two, crate::proofs::Arguments::asks_none))]
fn target_of(count: usize, word: &[u8]) -> Option<Version>
    ensures { result ≡ target_of count word.now }
{
    match (count, word) {
        (2, b"1") => Some(Version::One),
        (2, b"2") => Some(Version::Two),
        _ => None,
    }
}

fn say(rt: &impl Eprint, line: &str) {
    let _ = rt.eprintln(line);
}

// Says what failed, and why.
fn fail(rt: &impl Eprint, stream: &str, error: Error) {
    let _ = eprintln!(rt; "convert: {stream}: {error}");
}

fn print(rt: &(impl Print + Eprint), bytes: &[u8]) {
    if let Err(e) = rt.write_all(bytes) {
        fail(rt, "standard output", e);
    }
}

// No record that is accepted has more than 4,358 bytes, so ShortOutput is never said.

fn print_converted(rt: &(impl Print + Eprint), saved: &[u8], two: bool) {
    let mut out = [0; 4358];
    match converter::convert_phone_validations(saved, two, &mut out) {
        Ok(n) => print(rt, &out[..n]),
        Err(refusal) => {
            let _ = eprintln!(rt; "{refusal}");
        }
    }
}

// So many bytes of an input decide, whatever its length (first_bytes_decide in converter/proofs/Long.antt).
fn convert(rt: &(impl Print + Eprint), saved: &mut impl Read, version: Version) {
    let mut buf = [0; 261255];
    match input::read_input(saved, &mut buf) {
        Ok(n) => print_converted(rt, &buf[..n], version == Version::Two),
        Err(e) => fail(rt, "standard input", e),
    }
}

fn main(rt: HostRuntime) {
    let mut word = [0; 2];
    let n = input::arg(&rt, 1, &mut word);
    match target_of(input::arg_count(&rt), &word[..n]) {
        Some(version) => convert(&rt, &mut rt.stdin(), version),
        None => say(&rt, "convert: the version is 1 or 2"),
    }
}
