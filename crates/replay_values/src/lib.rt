// The values of items.
#![tactic(auto)]

ghost use Rattle.std.specs.Prelude.{◌≡◌, length};
ghost use Rattle.ascii.specs.Ascii.{ascii};
ghost use Rattle.replay_script.specs.Places.{item_of};
ghost use Rattle.replay_values.specs.Values.{flag_in, id_in, bytes_in, the_number, the_bytes, lay_the_bytes, the_flag, is_the_word, the_id, data_in, the_data, car_in, the_car};

use frames::Id;
use replay_digits::Written;
use state::Car;

// By `==`: the proof does not see the bytes of an arm of a `match`.
#[tactic(auto, using(arrays::proofs::Laws::same_is_pointwise), unfolding(crate::specs::Values::flag_in))]
pub fn flag_in(s: &[u8]) -> Option<bool>
    ensures { result ≡ flag_in s.now }
{
    if s == b"yes".as_slice() {
        Some(true)
    } else if s == b"no".as_slice() {
        Some(false)
    } else {
        None
    }
}

// A CAN id: its kind, and its number in hexadecimal.
#[tactic(auto, using(arrays::proofs::Laws::same_is_pointwise, replay_digits::proofs::Laws::number_most), unfolding(crate::specs::Values::id_in))]
pub fn can_id_in(kind: &[u8], digits: &[u8]) -> Option<Id>
    ensures { result ≡ id_in kind.now digits.now }
{
    let n = replay_digits::number_in(digits, 16, 0xffff_ffff)? as u32;
    if kind == b"std".as_slice() {
        Some(Id::Standard(n))
    } else if kind == b"ext".as_slice() {
        Some(Id::Extended(n))
    } else {
        None
    }
}

// Exactly N bytes.
#[tactic(auto, using(crate::proofs::Laws::bytes_made))]
fn bytes_in<const N: usize>(s: &[u8]) -> Option<[u8; N]>
    ensures { result ≡ bytes_in N s.now }
{
    if s.len() / 2 != N || !replay_digits::is_hex(s) {
        return None;
    }
    let mut bytes = [0u8; N];
    replay_digits::put_pairs(s, &mut bytes, 0);
    Some(bytes)
}

// Eight bytes.
#[tactic(auto, unfolding(crate::specs::Values::data_in))]
pub fn data_in(s: &[u8]) -> Option<[u8; 8]>
    ensures { result ≡ data_in s.now }
{
    bytes_in(s)
}

// A digest of 32 bytes, or the word none.
#[tactic(auto, using(arrays::proofs::Laws::same_is_pointwise), unfolding(crate::specs::Values::car_in))]
pub fn car_in(s: &[u8]) -> Option<Car>
    ensures { result ≡ car_in s.now }
{
    if s == b"none".as_slice() {
        return Some(Car {
            known: false,
            digest: [0u8; 32],
        });
    }
    let digest = bytes_in(s)?;
    Some(Car {
        known: true,
        digest,
    })
}

// The number of the only item with this key, in decimal.
#[tactic(auto, using(crate::proofs::Laws::number_first))]
pub fn number_of(line: &[u8], key: &[u8], most: u64) -> Option<u64>
    ensures { result ≡ the_number most (item_of key.now line.now) }
{
    replay_digits::number_in(replay_script::value(line, key), 10, most)
}

// The bytes of the only item with this key, laid down in `out` from `at` on, and the place after them.
pub fn bytes_of(line: &[u8], key: &[u8], form: Written, out: &mut [u8], at: usize) -> Option<usize>
    ensures place { result ≡ the_bytes form (item_of key.now line.now) at (length out.old) }
    ensures written { out.new ≡ lay_the_bytes form (item_of key.now line.now) at out.old }
{
    let v = replay_script::item(line, key)?;
    replay_digits::bytes(&line[v.start..v.end], form, out, at)
}

#[tactic(auto, using(crate::proofs::Laws::flag_first))]
pub fn flag_of(line: &[u8], key: &[u8]) -> Option<bool>
    ensures { result ≡ the_flag (item_of key.now line.now) }
{
    flag_in(replay_script::value(line, key))
}

// Whether the only item with this key has the value `word`.
#[tactic(auto, using(arrays::proofs::Laws::same_is_pointwise))]
pub fn is_word(line: &[u8], key: &[u8], word: &[u8]) -> bool
    ensures { result ≡ is_the_word word.now (item_of key.now line.now) }
{
    match replay_script::item(line, key) {
        Some(v) => &line[v.start..v.end] == word,
        None => false,
    }
}

// The CAN id of the items `kind` and `id`.
#[tactic(auto, using(crate::proofs::Laws::id_first))]
pub fn can_id_of(line: &[u8]) -> Option<Id>
    ensures { result ≡ the_id (item_of (ascii "kind") line.now) (item_of (ascii "id") line.now) }
{
    can_id_in(
        replay_script::value(line, b"kind"),
        replay_script::value(line, b"id"),
    )
}

// The bytes of the item `data`.
#[tactic(auto, using(crate::proofs::Laws::data_first))]
pub fn data_of(line: &[u8]) -> Option<[u8; 8]>
    ensures { result ≡ the_data (item_of (ascii "data") line.now) }
{
    data_in(replay_script::value(line, b"data"))
}

// The car of the item `car`.
#[tactic(auto, using(crate::proofs::Laws::car_first))]
pub fn car_of(line: &[u8]) -> Option<Car>
    ensures { result ≡ the_car (item_of (ascii "car") line.now) }
{
    car_in(replay_script::value(line, b"car"))
}
