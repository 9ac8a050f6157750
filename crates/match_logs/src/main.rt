// Holds a gate's journal against a bus recorder. The arguments are the paths of both logs; what is printed is the line of
// `texts::match_texts` of what was read.
#![tactic(auto)]

mod texts;

ghost use Rattle.std.specs.Prelude.{◌≤◌, length, IfSome};
ghost use Rattle.input.specs.Input.{Within};

use std::env::Env;
use std::fs::Files;
use std::io::{self, Error, ErrorKind};
use std::{fs, str};

// Reads the file of a path, which is text in UTF-8.
fn read_path(rt: &impl Files, path: &[u8], buf: &mut [u8]) -> io::Result<usize>
    ensures { Within (length buf.new) result }
{
    let Ok(name) = str::from_utf8(path) else {
        return Err(Error::new(ErrorKind::InvalidFilename, "not UTF-8"));
    };
    let mut file = fs::open(rt, name)?;
    input::read_input(&mut file, buf)
}

// Says of a path that it could not be read, and why.
fn fail(err: &impl Print, path: &[u8], error: Error) {
    let _ = err.write_all(path);
    let _ = println!(err; ": {error}");
}

// Reads the file that an argument names; where that fails, says so.
fn read_file(
    rt: &(impl Env + Files),
    err: &impl Print,
    place: usize,
    buf: &mut [u8],
) -> Option<usize>
    ensures { IfSome result (λ n. n ≤ length buf.new) }
{
    let mut path = [0u8; 4096];
    let n = input::arg(rt, place, &mut path);
    match read_path(rt, &path[..n], buf) {
        Ok(k) => Some(k),
        Err(e) => {
            fail(err, &path[..n], e);
            None
        }
    }
}

fn print_answer(rt: &(impl Print + Eprint), journal: &[u8], recorder: &[u8]) {
    let answer = texts::match_texts(journal, recorder);
    let mut out = [0u8; 64];
    let n = texts::put_answer(&mut out, answer);
    if let Err(e) = rt.write_all(&out[..n]) {
        let _ = eprintln!(rt; "match: standard output: {e}");
    }
}

// The first 41,554 bytes of a log decide: 513 lines of at most 81 bytes, and one byte more (first_bytes_decide in
// proofs/Logs.antt). So logs of any length are read in this much memory.
fn main(rt: HostRuntime) {
    let err = rt.stderr();
    let mut journal = [0u8; 41554];
    let mut recorder = [0u8; 41554];
    let Some(n) = read_file(&rt, &err, 1, &mut journal) else {
        return;
    };
    let Some(m) = read_file(&rt, &err, 2, &mut recorder) else {
        return;
    };
    print_answer(&rt, &journal[..n], &recorder[..m]);
}
