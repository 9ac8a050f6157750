// FIPS 180-4, 6.2.2: the hash value after one block. The definition is specs/Block.antt.
#![tactic(auto)]

ghost use Rattle.std.specs.Prelude.{◌≡◌, ◌+◌, ◌-◌, ◌*◌, ◌<◌, ◌≤◌, length, slice_index, slice_index_or, slice_set};
ghost use Rattle.sha256_block.specs.Block.{◌⊞◌, σ₀, σ₁, M, W, round, rounds, plus};

use words::{mixed, temp1, temp2, word};

mod words;

// FIPS 180-4, 4.2.2.
const K: [u32; 64] = [
    0x428a_2f98,
    0x7137_4491,
    0xb5c0_fbcf,
    0xe9b5_dba5,
    0x3956_c25b,
    0x59f1_11f1,
    0x923f_82a4,
    0xab1c_5ed5,
    0xd807_aa98,
    0x1283_5b01,
    0x2431_85be,
    0x550c_7dc3,
    0x72be_5d74,
    0x80de_b1fe,
    0x9bdc_06a7,
    0xc19b_f174,
    0xe49b_69c1,
    0xefbe_4786,
    0x0fc1_9dc6,
    0x240c_a1cc,
    0x2de9_2c6f,
    0x4a74_84aa,
    0x5cb0_a9dc,
    0x76f9_88da,
    0x983e_5152,
    0xa831_c66d,
    0xb003_27c8,
    0xbf59_7fc7,
    0xc6e0_0bf3,
    0xd5a7_9147,
    0x06ca_6351,
    0x1429_2967,
    0x27b7_0a85,
    0x2e1b_2138,
    0x4d2c_6dfc,
    0x5338_0d13,
    0x650a_7354,
    0x766a_0abb,
    0x81c2_c92e,
    0x9272_2c85,
    0xa2bf_e8a1,
    0xa81a_664b,
    0xc24b_8b70,
    0xc76c_51a3,
    0xd192_e819,
    0xd699_0624,
    0xf40e_3585,
    0x106a_a070,
    0x19a4_c116,
    0x1e37_6c08,
    0x2748_774c,
    0x34b0_bcb5,
    0x391c_0cb3,
    0x4ed8_aa4a,
    0x5b9c_ca4f,
    0x682e_6ff3,
    0x748f_82ee,
    0x78a5_636f,
    0x84c8_7814,
    0x8cc7_0208,
    0x90be_fffa,
    0xa450_6ceb,
    0xbef9_a3f7,
    0xc671_78f2,
];

// Step 3: one round, with the constant `k` and the word `w` of the schedule.
fn round(v: [u32; 8], k: u32, w: u32) -> [u32; 8]
    ensures { result ≡ round k w v }
{
    let t1 = temp1(v[4], v[5], v[6], v[7], k, w);
    let t2 = temp2(v[0], v[1], v[2]);
    [
        t1.wrapping_add(t2),
        v[0],
        v[1],
        v[2],
        v[3].wrapping_add(t1),
        v[4],
        v[5],
        v[6],
    ]
}

// Step 1 for word `t` of the schedule, one of the first 16, from block `i`, and the round with it.
fn first(w: &mut [u32; 64], k: &[u32; 64], v: [u32; 8], m: &[u8], i: usize, t: usize) -> [u32; 8]
    requires { (64 * i + 64 ≤ length m.now) × (t < 16) }
    ensures { (w.new ≡ slice_set w.old t (M m.now i t)) × (result ≡ round (slice_index k.now t) (slice_index w.new t) v) }
{
    w[t] = word(m, 64 * i + 4 * t);
    round(v, k[t], w[t])
}

// Step 1 for word `t`, one of the rest, from those before it, and the round with it.
fn later(w: &mut [u32; 64], k: &[u32; 64], v: [u32; 8], t: usize) -> [u32; 8]
    requires { (16 ≤ t) × (t < 64) }
    ensures { (w.new ≡ slice_set w.old t (σ₁ (slice_index w.old (t - 2)) ⊞ slice_index_or w.old (t - 7) 0 ⊞ σ₀ (slice_index w.old (t - 15)) ⊞ slice_index_or w.old (t - 16) 0)) × (result ≡ round (slice_index k.now t) (slice_index w.new t) v) }
{
    w[t] = mixed(w[t - 2], w[t - 7], w[t - 15], w[t - 16]);
    round(v, k[t], w[t])
}

// Steps 1 to 3 for block `i`: the working variables after the 64 rounds. A word of the schedule is made just before its
// round, and eight rounds are one turn of the loop: both are for speed. One round a turn takes a quarter longer. K is
// copied once; an index into the constant itself would copy it in each round.
fn working(s: [u32; 8], m: &[u8], i: usize) -> [u32; 8]
    requires { 64 * i + 64 ≤ length m.now }
    ensures { result ≡ rounds (W (M m.now i) 64) s 64 }
{
    let k = K;
    let mut w = [0u32; 64];
    let mut v = s;
    for t in (0..16).step_by(8) {
        let v1 = first(&mut w, &k, v, m, i, t);
        let v2 = first(&mut w, &k, v1, m, i, t + 1);
        let v3 = first(&mut w, &k, v2, m, i, t + 2);
        let v4 = first(&mut w, &k, v3, m, i, t + 3);
        let v5 = first(&mut w, &k, v4, m, i, t + 4);
        let v6 = first(&mut w, &k, v5, m, i, t + 5);
        let v7 = first(&mut w, &k, v6, m, i, t + 6);
        let v8 = first(&mut w, &k, v7, m, i, t + 7);
        v = v8;
    }
    for t in (16..64).step_by(8) {
        let v1 = later(&mut w, &k, v, t);
        let v2 = later(&mut w, &k, v1, t + 1);
        let v3 = later(&mut w, &k, v2, t + 2);
        let v4 = later(&mut w, &k, v3, t + 3);
        let v5 = later(&mut w, &k, v4, t + 4);
        let v6 = later(&mut w, &k, v5, t + 5);
        let v7 = later(&mut w, &k, v6, t + 6);
        let v8 = later(&mut w, &k, v7, t + 7);
        v = v8;
    }
    v
}

// Step 4.
fn plus(v: [u32; 8], s: [u32; 8]) -> [u32; 8]
    ensures { result ≡ plus v s }
{
    std::array::from_fn(|i| v[i].wrapping_add(s[i]))
}

// The hash value after block `i` of `m`, where `h` is the one before it. A block is named by `m` and `i`, as in `M` of
// specs/Block.antt.
pub fn compress(h: [u32; 8], m: &[u8], i: usize) -> [u32; 8]
    requires { 64 * i + 64 ≤ length m.now }
    ensures { result ≡ plus (rounds (W (M m.now i) 64) h 64) h }
{
    plus(working(h, m, i), h)
}
