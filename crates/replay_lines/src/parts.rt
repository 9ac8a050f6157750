// Parts of lines: ids and lists of them, methods, saved records, digits.
ghost use Rattle.std.specs.Prelude.{◌≡◌, take};
ghost use Rattle.phones.specs.Phones.{id_bytes, phones_of};
ghost use Rattle.replay_page.specs.Page.{page, bytes};
ghost use Rattle.replay_lines.specs.Parts.{id_at, ids_from, method};

use phones::{PhoneList, ShortId};
use saved_record::SavedRecord;
use state::Method;

// An id.
pub fn put_phone(out: &mut [u8], at: usize, p: ShortId) -> usize
    ensures { page out.new result ≡ bytes (id_bytes p) (page out.old at) }
{
    replay_page::put_first(out, at, &p.bytes, p.len)
}

// The id at place `i` of a list.
fn put_phone_at(out: &mut [u8], at: usize, i: usize, id: &[u8]) -> usize
    ensures { page out.new result ≡ id_at i id.now (page out.old at) }
{
    let k = replay_page::put_comma(out, at, i);
    replay_page::put_bytes(out, k, id)
}

// The ids of a list.
pub fn put_phones(out: &mut [u8], at: usize, l: PhoneList) -> usize
    ensures { page out.new result ≡ ids_from 0 (phones_of l) (page out.old at) }
{
    let mut k = at;
    for (i, id) in l.ids().enumerate() {
        k = put_phone_at(out, k, i, id);
    }
    k
}

// ID/KIND/APPROVAL
pub fn put_method(out: &mut [u8], at: usize, m: Method) -> usize
    ensures { page out.new result ≡ method m (page out.old at) }
{
    let k = put_phone(out, at, m.id);
    let k = replay_page::put_text(out, k, b"/");
    let k = crate::fields::put_word(out, k, crate::answer::kind_word(m.kind));
    replay_page::put_flag(out, k, b"/", m.needs_approval)
}

// A saved record.
pub fn put_saved(out: &mut [u8], at: usize, saved: SavedRecord) -> usize
    ensures { page out.new result ≡ bytes (take saved.len saved.bytes) (page out.old at) }
{
    replay_page::put_first(out, at, &saved.bytes, saved.len)
}
