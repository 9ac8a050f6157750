// Phones one behind the other in memory, as a saved record has them: written from a list, and read into one.
#![tactic(auto)]

ghost use Rattle.std.specs.Prelude.{◌≡◌, ◌+◌, ◌≤◌, ◌<◌, length};
ghost use Rattle.arrays.specs.Arrays.{put};
ghost use Rattle.phones.specs.Phones.{phones_of};
ghost use Rattle.phone_fields.specs.PhoneFields.{field, fields, read_fields, fields_read};
ghost use Rattle.phone_fields.specs.Steps.{ReadsFirst, only_checked};

use phones::{Packing, PhoneList};

// Why bytes are not read into a list: a phone is empty or not whole, or so many bytes are phones that a list cannot hold.
#[derive(Clone, Copy, PartialEq, Eq)]
pub enum FieldsError {
    Malformed,
    TooLarge(usize),
}

// The phones that some bytes begin with, and how many bytes they take.
#[derive(Clone, Copy)]
pub struct FieldsRead {
    pub phones: PhoneList,
    pub used: usize,
}

// Writes a phone at `at`, a length byte and its bytes, and tells the place after it.
fn put_field(p: &[u8], out: &mut [u8], at: usize) -> usize
    requires byte { length p.now < 256 }
    requires room { at + length (field p.now) ≤ length out.old }
    ensures place { result ≡ at + length (field p.now) }
    ensures written { out.new ≡ put out.old at (field p.now) }
{
    out[at] = p.len() as u8;
    arrays::put(out, at + 1, p);
    at + 1 + p.len()
}

// Writes the phones of a list from `at` on, where there is room for them, and tells the place after them.
pub fn put_fields(l: PhoneList, out: &mut [u8], at: usize) -> usize
    requires { at + length (fields (phones_of l)) ≤ length out.old }
    ensures { (result ≡ at + length (fields (phones_of l))) × (out.new ≡ put out.old at (fields (phones_of l))) }
{
    let mut to = at;
    for id in l.ids() {
        to = put_field(id, out, to);
    }
    to
}

// The phone that what remains begins with, and what follows it; none if it is empty or not whole.
fn first_field(rest: &[u8]) -> Option<(&[u8], &[u8])>
    ensures { ReadsFirst rest.now result }
{
    let (len, after) = rest.split_first()?;
    let len = usize::from(*len);
    if len == 0 || after.len() < len {
        None
    } else {
        Some(after.split_at(len))
    }
}

// Reads on where the count or a phone is over its limit: what follows may still be malformed. `total` is the length of all
// the bytes, of which `part` is the end.
fn only_checked(count: usize, part: &[u8], total: usize) -> FieldsError
    requires { length part.now ≤ total }
    ensures { result ≡ only_checked total (read_fields count part.now) }
{
    let mut rest = part;
    for _ in 0..count {
        match first_field(rest) {
            Some((_, after)) => rest = after,
            None => return FieldsError::Malformed,
        }
    }
    FieldsError::TooLarge(total - rest.len())
}

// Reads `count` phones, each from what remains after the one before it. What follows them is not looked at.
pub fn read_fields(count: usize, bytes: &[u8]) -> Result<FieldsRead, FieldsError>
    ensures { result ≡ fields_read (length bytes.now) (read_fields count bytes.now) }
{
    if 32 < count {
        return Err(only_checked(count, bytes, bytes.len()));
    }
    let mut packing = Packing::new();
    let mut rest = bytes;
    for k in 0..count {
        let (id, after) = first_field(rest).ok_or(FieldsError::Malformed)?;
        if 32 < id.len() {
            return Err(only_checked(count - k, rest, bytes.len()));
        }
        packing.push(id);
        rest = after;
    }
    Ok(FieldsRead {
        phones: packing.list,
        used: bytes.len() - rest.len(),
    })
}
