// What a program reads: a file or a stream to its end, into memory that the caller lends, and its arguments.
#![tactic(auto)]

ghost use Rattle.std.specs.Prelude.{◌≤◌, length};
ghost use Rattle.input.specs.Input.{Within};

use std::env::{Env, FillError};
use std::io::{self, Read};

// Reads to the end of a file, or until `buf` is full, and answers how many bytes of `buf` were read, or why a read failed.
// What it reads and how much is open; it is no more than `buf` holds.
pub fn read_input<R: Read>(reader: &mut R, buf: &mut [u8]) -> io::Result<usize>
    ensures { Within (length buf.new) result }
{
    let mut n = 0;
    while n < buf.len() {
        match reader.read(&mut buf[n..])? {
            0 => break,
            more => n += more,
        }
    }
    Ok(n)
}

// With how many arguments a program was started, its own name among them. How many there are is open.
pub fn arg_count(rt: &impl Env) -> usize {
    for i in 0..usize::MAX {
        if let Err(FillError::NotPresent) = rt.arg(i, &mut []) {
            return i;
        }
    }
    usize::MAX
}

// Puts an argument at the front of `buf`, and answers its length; 0 where there is none or it is longer than `buf`. Which bytes it has
// and how many is open; they are no more than `buf` holds.
pub fn arg(rt: &impl Env, place: usize, buf: &mut [u8]) -> usize
    ensures { result ≤ length buf.new }
{
    rt.arg(place, buf).unwrap_or(0)
}
