// Reads a record on standard input and prints its listing. What is printed is `listing::list_record` of what was read. What a
// program reads and writes is open to a contract: `print_listing` and `main` give nothing back.
#![tactic(auto)]

use listing::Listing;
use std::io::Error;

// Says what failed, and why.
fn fail(rt: &impl Eprint, stream: &str, error: Error) {
    let _ = eprintln!(rt; "list: {stream}: {error}");
}

fn print_listing(rt: &(impl Print + Eprint), input: &[u8]) {
    let Listing { bytes, len } = listing::list_record(input);
    if let Err(e) = rt.write_all(&bytes[..len]) {
        fail(rt, "standard output", e);
    }
}

// One byte more than the listing takes, so that a longer input is known by its length.
fn main(rt: HostRuntime) {
    let mut buf = [0u8; 8193];
    match input::read_input(&mut rt.stdin(), &mut buf) {
        Ok(n) => print_listing(&rt, &buf[..n]),
        Err(e) => fail(&rt, "standard input", e),
    }
}
