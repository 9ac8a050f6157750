// The examples of FIPS 180-4 and a message of 4,126 bytes, whole and cut in two at every place, and car digests of several
// lengths: a line each, with the digest in hexadecimal. The file `stdout` was made with another implementation. What a
// program writes is open to a contract: `digest`, `line`, `message`, `car` and `main` give back only that a write failed, and
// `stdout` has what they write.
#![tactic(auto)]

ghost use Rattle.std.specs.Prelude.{◌≡◌, ◌+◌, ◌≤◌, length, replicate};
ghost use Rattle.sha256.specs.Sha256 as Sha;
ghost use Rattle.vectors.specs.Counted.{counted};

use car_digest::car_digest;
use sha256::{block_count, finish, hash_blocks, initial, sha256, sha256_of_two};
use std::io;

// Ends a line.
fn digest(out: &impl Print, d: [u8; 32]) -> io::Result<()> {
    for b in d {
        print!(out; "{b:02x}")?;
    }
    println!(out; "")
}

fn line(out: &impl Print, name: &str, d: [u8; 32]) -> io::Result<()> {
    out.print(name)?;
    digest(out, d)
}

// At how many places `m` was cut in two, from the front on, until the two pieces gave another digest than the whole: at all
// of them.
fn cuts(m: &[u8]) -> usize
    requires { length m.now ≤ 4126 }
    ensures { result ≡ length m.now + 1 }
{
    let whole = sha256(m);
    for i in 0..=m.len() {
        if sha256_of_two(&m[..i], &m[i..]) != whole {
            return i;
        }
    }
    m.len() + 1
}

fn message(out: &impl Print, name: &str, m: &[u8]) -> io::Result<()>
    requires { length m.now ≤ 4126 }
{
    let cuts = cuts(m);
    print!(out; "message={name} cuts={cuts}")?;
    line(out, " digest=", sha256(m))
}

// The digest of one million times "a", 25 blocks at a time.
fn million() -> [u8; 32]
    ensures { result ≡ Sha.sha256 (replicate 1000000 97) }
{
    let b = [b'a'; 1600];
    let mut h = initial();
    for _ in 0..625u32 {
        let next = hash_blocks(h, &b);
        h = next;
    }
    finish(h, b"", 1_000_000)
}

// The bytes of which the long message and the fingerprints are made: 0, 1, .., 250, 0, 1, ..
fn body() -> [u8; 4126]
    ensures { result ≡ counted 4126 }
{
    std::array::from_fn(|i| (i % 251) as u8)
}

// The car digest of a platform and the first `n` bytes of `b`.
fn car(out: &impl Print, platform: u32, b: &[u8], n: usize) -> io::Result<()>
    requires { n ≤ length b.now }
{
    print!(out; "car platform={platform} bytes={n}")?;
    match car_digest(platform, &b[..n]) {
        Some(d) => {
            let blocks = block_count(30 + n as u64);
            print!(out; " blocks={blocks}")?;
            line(out, " digest=", d)
        }
        None => out.println(" refused"),
    }
}

fn main(rt: HostRuntime) -> io::Result<()> {
    let out = rt.stdout();
    message(&out, "empty", b"")?;
    message(&out, "abc", b"abc")?;
    message(
        &out,
        "448bits",
        b"abcdbcdecdefdefgefghfghighijhijkijkljklmklmnlmnomnopnopq",
    )?;
    message(
        &out,
        "896bits",
        b"abcdefghbcdefghicdefghijdefghijkefghijklfghijklmghijklmnhijklmnoijklmnopjklmnopqklmnopqrlmnopqrsmnopqrstnopqrstu",
    )?;
    line(&out, "message=million_a digest=", million())?;
    let b = body();
    message(&out, "4126bytes", &b)?;
    car(&out, 1, &b, 0)?;
    car(&out, 305419896, &b, 25)?;
    car(&out, 305419896, &b, 26)?;
    car(&out, 9, &b, 33)?;
    car(&out, 11, &b, 34)?;
    car(&out, 5, &b, 97)?;
    car(&out, 4294967295, &b, 4096)?;
    car(&out, 0, &b, 4097)
}
