// The listings of records that documents 01 and 02 speak of, each after lines with the case's name and the number of the verdict on it as a
// record. What a program writes is open to a contract: the `show` functions and `main` give back only that a write failed, and the file
// `stdout` has what they write.
#![tactic(auto)]

ghost use Rattle.std.specs.Prelude.{◌≡◌};
ghost use Rattle.list_cases.specs.Records.{with_byte, with_run, with_digest, with_head, with_cars, with_phone, with_phones, with_car};

use listing::Listing;
use saved_record::RecordError;
use std::io;

// A record that is being made. No heap: its bytes stand in an array, and `at` is the place after what was written last.
#[derive(Clone, Copy)]
struct Draft {
    bytes: [u8; 8193],
    at: usize,
}

impl Draft {
    fn new() -> Draft {
        Draft {
            bytes: [0; 8193],
            at: 0,
        }
    }

    // Past the end nothing is written.
    #[tactic(auto, unfolding(crate::specs::Records::with_byte))]
    fn put_byte(&mut self, b: u8)
        ensures { self.new ≡ with_byte b self.old }
    {
        if self.at < self.bytes.len() {
            self.bytes[self.at] = b;
            self.at += 1;
        }
    }

    // `n` bytes, the first one `first` and each `step` more than the one before, 0 after 255.
    fn put_run(&mut self, first: u8, step: u8, n: u8)
        ensures { self.new ≡ with_run first step n self.old }
    {
        let mut b = first;
        for _ in 0..n {
            self.put_byte(b);
            b = b.wrapping_add(step);
        }
    }

    // 32 times `digest`, and the count.
    #[tactic(auto, unfolding(crate::specs::Records::with_digest))]
    fn put_digest(&mut self, digest: u8, count: u8)
        ensures { self.new ≡ with_digest digest count self.old }
    {
        self.put_run(digest, 0, 32);
        self.put_byte(count);
    }

    // From the front: version 1, 32 times 0x11, and the count.
    #[tactic(auto, unfolding(crate::specs::Records::with_head))]
    fn put_head(&mut self, count: u8)
        ensures { self.new ≡ with_head count self.old }
    {
        self.at = 0;
        self.put_byte(1);
        self.put_digest(0x11, count);
    }

    // From the front: version 2, and the number of cars.
    #[tactic(auto, unfolding(crate::specs::Records::with_cars))]
    fn put_cars(&mut self, n: u8)
        ensures { self.new ≡ with_cars n self.old }
    {
        self.at = 0;
        self.put_byte(2);
        self.put_byte(n);
    }

    #[tactic(auto, unfolding(crate::specs::Records::with_phone))]
    fn put_phone(&mut self, first: u8, len: u8)
        ensures { self.new ≡ with_phone first len self.old }
    {
        self.put_byte(len);
        self.put_run(first, 1, len);
    }

    // `n` phones of `len` bytes; the first byte of each is its place.
    fn put_phones(&mut self, n: u8, len: u8)
        ensures { self.new ≡ with_phones n len self.old }
    {
        for i in 0..n {
            self.put_phone(i, len);
        }
    }

    // A car of version 2 with `n` phones of `len` bytes.
    #[tactic(auto, unfolding(crate::specs::Records::with_car))]
    fn put_car(&mut self, digest: u8, n: u8, len: u8)
        ensures { self.new ≡ with_car digest n len self.old }
    {
        self.put_digest(digest, n);
        self.put_phones(n, len);
    }

    // Shows the first `n` bytes.
    fn show(&self, out: &impl Print, name: &str, n: usize) -> io::Result<()> {
        match self.bytes.get(..n) {
            Some(record) => show(out, name, record),
            None => Ok(()),
        }
    }
}

// The number by which a record is refused, and 0 if it is not.
fn number(record: &[u8]) -> u8 {
    match decode_record::decode_phone_validations(record) {
        Ok(_) => 0,
        Err(RecordError::Malformed) => 22,
        Err(RecordError::TooLarge) => 23,
        Err(RecordError::CarTwice) => 28,
    }
}

fn show(out: &impl Print, name: &str, record: &[u8]) -> io::Result<()> {
    println!(out; "case={name}")?;
    println!(out; "number={}", number(record))?;
    let Listing { bytes, len } = listing::list_record(record);
    out.write_all(&bytes[..len])
}

// `n` phones of `len` bytes in version 1.
fn show_phones(out: &impl Print, name: &str, n: u8, len: u8) -> io::Result<()> {
    let mut draft = Draft::new();
    draft.put_head(n);
    draft.put_phones(n, len);
    draft.show(out, name, draft.at)
}

// P12, and P13 with one byte more.
fn show_example(out: &impl Print) -> io::Result<()> {
    let mut draft = Draft::new();
    draft.put_head(1);
    let count = draft.at;
    draft.put_byte(2);
    draft.put_byte(0xA1);
    let last = draft.at;
    draft.put_byte(0xB2);
    let end = draft.at;
    draft.show(out, "P12", end)?;
    draft.put_byte(0);
    draft.show(out, "P13", draft.at)?;
    draft.show(out, "the example without its last byte", last)?;
    draft.show(out, "the example up to its count", count)?;
    draft.show(out, "the example up to its digest", 33)?;
    draft.bytes[0] = 2;
    draft.show(out, "the example with version 2", end)?;
    draft.bytes[0] = 3;
    draft.show(out, "the example with version 3", end)
}

// One car in version 2, and what is wrong with its head.
fn show_one(out: &impl Print) -> io::Result<()> {
    let mut draft = Draft::new();
    draft.put_cars(1);
    draft.put_car(0x11, 1, 2);
    let end = draft.at;
    draft.show(out, "version 2, one car", end)?;
    draft.show(out, "version 2, its version alone", 1)?;
    draft.show(out, "version 2, no car after the number", 2)?;
    draft.put_cars(0);
    draft.show(out, "version 2, number of cars 0", 2)?;
    draft.show(out, "version 2, number of cars 0 and a car", end)?;
    draft.put_cars(2);
    draft.show(out, "version 2, number of cars too large by one", end)
}

// Two cars, the higher digest first; the second has `n` phones of `len` bytes.
fn show_pair(out: &impl Print, name: &str, n: u8, len: u8) -> io::Result<()> {
    let mut draft = Draft::new();
    draft.put_cars(2);
    draft.put_car(0x22, 2, 3);
    draft.put_car(0x11, n, len);
    draft.show(out, name, draft.at)
}

// Two cars, and where the record ends.
fn show_ends(out: &impl Print) -> io::Result<()> {
    let mut draft = Draft::new();
    draft.put_cars(2);
    draft.put_car(0x22, 2, 3);
    let second = draft.at;
    draft.put_digest(0x11, 1);
    let count = draft.at;
    draft.put_phones(1, 1);
    let end = draft.at;
    draft.put_byte(0);
    draft.show(out, "version 2, two cars and a byte", draft.at)?;
    draft.show(out, "version 2, the second car not there", second)?;
    draft.show(out, "version 2, the second car up to its count", count)?;
    draft.put_cars(1);
    draft.show(out, "version 2, number of cars too small by one", end)
}

// One digest under the first and the third car, which have `n` phones of `len` bytes and `m` of `size`.
fn show_again(out: &impl Print, name: &str, n: u8, len: u8, m: u8, size: u8) -> io::Result<()> {
    let mut draft = Draft::new();
    draft.put_cars(3);
    draft.put_car(0x22, n, len);
    draft.put_car(0x11, 1, 1);
    draft.put_car(0x22, m, size);
    draft.show(out, name, draft.at)
}

// Two digests that differ in their last byte, and then are the same, with a byte after them.
fn show_last(out: &impl Print) -> io::Result<()> {
    let mut draft = Draft::new();
    draft.put_cars(2);
    draft.put_car(0x22, 1, 1);
    let second = draft.at;
    draft.put_car(0x22, 1, 1);
    let end = draft.at;
    draft.put_byte(0);
    draft.show(out, "a digest twice and a byte", draft.at)?;
    draft.at = second;
    draft.put_run(0x22, 0, 31);
    draft.put_byte(0x23);
    draft.show(out, "digests that differ in their last byte", end)
}

// Four cars with all that fits, and five.
fn show_four(out: &impl Print) -> io::Result<()> {
    let mut draft = Draft::new();
    draft.put_cars(4);
    draft.put_car(0x11, 32, 32);
    draft.put_car(0x22, 32, 32);
    draft.put_car(0x33, 32, 32);
    draft.put_car(0x44, 32, 32);
    let end = draft.at;
    if end == 4358 {
        draft.show(out, "4,358 bytes: four cars of 32 phones of 32 bytes", end)?;
    }
    draft.put_cars(5);
    draft.at = end;
    draft.put_car(0x55, 1, 1);
    draft.show(out, "five cars", draft.at)
}

// Well formed to the last byte, 8,192 of them and 8,193.
fn show_long(out: &impl Print) -> io::Result<()> {
    let mut draft = Draft::new();
    draft.put_cars(2);
    draft.put_car(0x11, 31, 255);
    let second = draft.at;
    draft.put_car(0x22, 1, 187);
    if draft.at == 8192 {
        draft.show(out, "8,192 bytes", draft.at)?;
    }
    draft.at = second;
    draft.put_car(0x22, 1, 188);
    if draft.at == 8193 {
        draft.show(out, "8,193 bytes", draft.at)?;
    }
    Ok(())
}

fn show_version_one(out: &impl Print) -> io::Result<()> {
    show_phones(out, "no phone", 0, 0)?;
    show_phones(out, "an id of 0 bytes", 1, 0)?;
    show_phones(out, "an id of 32 bytes", 1, 32)?;
    show_phones(out, "an id of 33 bytes", 1, 33)?;
    show_phones(out, "10 phones", 10, 1)?;
    show_phones(out, "32 phones of 32 bytes", 32, 32)?;
    show_phones(out, "33 phones", 33, 1)
}

fn show_version_two(out: &impl Print) -> io::Result<()> {
    show_pair(out, "version 2, two cars", 1, 1)?;
    show_pair(out, "version 2, the second car without phones", 0, 0)?;
    show_pair(out, "version 2, the second car with an empty id", 1, 0)?;
    show_pair(
        out,
        "version 2, the second car with an id of 33 bytes",
        1,
        33,
    )?;
    show_pair(out, "version 2, the second car with 33 phones", 33, 1)
}

// 22 before 28 before 23.
fn show_twice(out: &impl Print) -> io::Result<()> {
    show_again(out, "a digest twice", 1, 1, 1, 1)?;
    show_again(
        out,
        "a digest twice, the first with an id of 33 bytes",
        1,
        33,
        1,
        1,
    )?;
    show_again(out, "a digest twice, the first with 33 phones", 33, 1, 1, 1)?;
    show_again(
        out,
        "a digest twice, the second with an id of 33 bytes",
        1,
        1,
        1,
        33,
    )?;
    show_again(
        out,
        "a digest twice, the second with an empty id",
        1,
        1,
        1,
        0,
    )
}

fn main(rt: HostRuntime) -> io::Result<()> {
    let out = rt.stdout();
    show_example(&out)?;
    show(&out, "an empty input", b"")?;
    show_version_one(&out)?;
    show_one(&out)?;
    show_ends(&out)?;
    show_version_two(&out)?;
    show_last(&out)?;
    show_twice(&out)?;
    show_four(&out)?;
    show_long(&out)
}
