// Ids taken out of a list: the first that is a string, every one that is, or every one that another list does not have. What stays
// moves together, with zeros past it.
#![tactic(auto)]

ghost use Rattle.std.specs.Prelude.{◌≡◌, ℕ, ◌<◌};
ghost use Rattle.phones.specs.Ids.{keep_where, remove_first, remove_all, retain_in};
ghost use Rattle.phones.specs.Phones.{phones_of, list_of};
ghost use Rattle.list_removals.specs.Marks.{KeepsBy};

use phones::{Packing, PhoneList};

// The ids on which a test of the place and the id passes.
fn keeping<F: Fn(usize, &[u8]) -> bool>(l: &PhoneList, keep: F) -> PhoneList
    requires { (i : ℕ) (id : _) → i < 32 → F.pre keep i id }
    ensures { KeepsBy (F.post keep) (phones_of l.now) result }
{
    let mut packing = Packing::new();
    for (i, id) in l.ids().enumerate() {
        if keep(i, id) {
            packing.push(id);
        }
    }
    packing.list
}

// The list without the ids that are not marked.
pub fn keep_where(l: PhoneList, keep: [bool; 32]) -> PhoneList
    ensures { result ≡ list_of (keep_where keep (phones_of l)) }
{
    keeping(&l, |i, _| keep[i])
}

// The list without the first id that is `s`.
pub fn remove_first(l: PhoneList, s: &[u8]) -> PhoneList
    ensures { result ≡ list_of (remove_first s.now (phones_of l)) }
{
    match phones::first_at(l.ids(), s) {
        Some(first) => keeping(&l, |i, _| i != first),
        None => phones::canonical(l),
    }
}

// The list without every id that is `s`.
pub fn remove_all(l: PhoneList, s: &[u8]) -> PhoneList
    ensures { result ≡ list_of (remove_all s.now (phones_of l)) }
{
    keeping(&l, |_, id| !arrays::same_bytes(id, s))
}

// The ids of the list that are in the other one.
pub fn retain_in(l: PhoneList, other: PhoneList) -> PhoneList
    ensures { result ≡ list_of (retain_in (phones_of other) (phones_of l)) }
{
    keeping(&l, |_, id| phones::found(other.ids(), id))
}
