// SHA-256 (FIPS 180-4). The definition is specs/Sha256.antt, that of a message in pieces specs/Pieces.antt.
#![tactic(auto)]

ghost use Rattle.std.specs.Prelude.{◌≡◌, ◌*◌, ◌/◌, ◌<◌, length};
ghost use Rattle.arrays.specs.Arrays.{padded};
ghost use Rattle.sha256.specs.Pieces.{opened, absorbed, closed};
ghost use Rattle.sha256.specs.Sha256.{H₀, bytes, block_count, hash_from, pad_last, finished};
ghost use Rattle.sha256.specs.Sha256 as Sha;

use sha256_block::compress;

// FIPS 180-4, 5.3.3.
const H0: [u32; 8] = [
    0x6a09_e667,
    0xbb67_ae85,
    0x3c6e_f372,
    0xa54f_f53a,
    0x510e_527f,
    0x9b05_688c,
    0x1f83_d9ab,
    0x5be0_cd19,
];

// The initial hash value.
pub fn initial() -> [u32; 8]
    ensures { result ≡ H₀ }
{
    H0
}

// The hash value after the whole blocks of `m`, from the hash value `h`. Bytes past the last whole block are not looked
// at.
#[tactic(auto, using(crate::proofs::Pieces::block_more), unfolding(crate::specs::Sha256::hash_from))]
pub fn hash_blocks(h: [u32; 8], m: &[u8]) -> [u32; 8]
    ensures { result ≡ hash_from h m.now (length m.now / 64) }
{
    let mut s = h;
    for i in 0..m.len() / 64 {
        // In two steps: with `s = compress(..)` the loop's proof did not close.
        let next = compress(s, m, i);
        s = next;
    }
    s
}

// The bytes of a hash value.
fn out(s: [u32; 8]) -> [u8; 32]
    ensures { result ≡ bytes s }
{
    let mut r = [0u8; 32];
    for (i, word) in s.iter().enumerate() {
        r[4 * i..4 * i + 4].copy_from_slice(&word.to_be_bytes());
    }
    r
}

// How long the last `n` bytes of a message are with their padding.
fn end(n: usize) -> usize
    requires { n < 64 }
    ensures { result ≡ 64 * block_count n }
{
    if n < 56 { 64 } else { 128 }
}

// 5.1.1: fewer than 64 bytes, padded as the end of a message of `total` bytes. Zeros follow.
fn last(rest: &[u8], total: u64) -> [u8; 128]
    requires { length rest.now < 64 }
    ensures { result ≡ padded 128 0 (pad_last rest.now total) }
{
    let mut t = [0u8; 128];
    let n = rest.len();
    let e = end(n);
    t[..n].copy_from_slice(rest);
    t[n] = 0x80;
    t[e - 8..e].copy_from_slice(&total.wrapping_mul(8).to_be_bytes());
    t
}

// The message digest where `h` is the hash value so far, `rest` is what is left of the message, of any length, and the
// message has `total` bytes in all.
pub fn finish(h: [u32; 8], rest: &[u8], total: u64) -> [u8; 32]
    ensures { result ≡ finished h rest.now total }
{
    let n = rest.len() % 64;
    let t = last(&rest[rest.len() - n..], total);
    out(hash_blocks(hash_blocks(h, rest), &t[..end(n)]))
}

// The message digest of `m`. FIPS 180-4 takes messages of fewer than 2^61 bytes; past that the length is taken modulo
// 2^64 bits.
#[tactic(auto, unfolding(crate::specs::Sha256::sha256, crate::specs::Sha256::finished))]
pub fn sha256(m: &[u8]) -> [u8; 32]
    ensures { result ≡ Sha.sha256 m.now }
{
    finish(H0, m, m.len() as u64)
}

// The message digest of `a` followed by `b`, taken in one after the other. Neither is copied: the whole blocks of each are
// hashed where they lie, and one block is put together of what is left of `a` and the front of `b`. The sum of the lengths
// is taken modulo 2^64, which the padding does not see.
pub fn sha256_of_two(a: &[u8], b: &[u8]) -> [u8; 32]
    ensures { result ≡ closed (absorbed (absorbed opened a.now) b.now) }
{
    let n = a.len() % 64;
    let total = (a.len() as u64).wrapping_add(b.len() as u64);
    let h = hash_blocks(H0, a);
    let mut t = [0u8; 64];
    t[..n].copy_from_slice(&a[a.len() - n..]);
    let room = 64 - n;
    if b.len() < room {
        let e = n + b.len();
        t[n..e].copy_from_slice(b);
        return finish(h, &t[..e], total);
    }
    t[n..].copy_from_slice(&b[..room]);
    finish(hash_blocks(h, &t), &b[room..], total)
}

// How many blocks the padded message of `n` bytes has.
pub fn block_count(n: u64) -> u64
    ensures { result ≡ block_count n }
{
    n / 64 + if n % 64 < 56 { 1 } else { 2 }
}
