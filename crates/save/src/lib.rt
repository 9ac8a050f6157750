// A save of the record while phones change (02, W-209).
#![tactic(auto)]

ghost use Rattle.std.specs.Prelude.{◌≡◌, ◌-◌, ◌≤◌, length, take};
ghost use Rattle.arrays.specs.Arrays.{put};
ghost use Rattle.saved_record.specs.Store.{cars_of};
ghost use Rattle.save.specs.Save.{no_save, opening, rest, taking};
ghost use Rattle.save.specs.Steps.{Says, SaysOf};

use saved_record::Store;
use state::{Answer, Save};

// What an operation on the save says, but for the memory that it was lent.
#[derive(Clone, Copy)]
pub struct Kept {
    pub answer: Answer,
    pub save: Save,
}

// None is open.
pub fn no_save() -> Save
    ensures { result ≡ no_save }
{
    Save {
        stored: saved_record::no_record(),
        at: 0,
        present: false,
    }
}

pub fn open_phone_validations_save(s: Store) -> Kept
    ensures { Says result (opening (cars_of s)) }
{
    Kept {
        answer: Answer::Done,
        save: Save {
            stored: validations::record_for(s),
            at: 0,
            present: true,
        },
    }
}

// How many bytes are left: told by what remains and never by a sum, which might overflow.
fn left_of(s: Save) -> usize
    ensures { result ≡ length (rest s) }
{
    s.stored.len.min(4358).saturating_sub(s.at)
}

// Puts the next bytes, so many, at the front of the lent memory.
fn hand_out(s: Save, n: usize, out: &mut [u8])
    requires { (n ≤ length (rest s)) × (n ≤ length out.old) }
    ensures { out.new ≡ put out.old 0 (take n (rest s)) }
{
    if 0 < n {
        arrays::put(out, 0, &s.stored.bytes[s.at..s.at + n]);
    }
}

pub fn take_phone_validations_save(s: Save, out: &mut [u8]) -> Kept
    ensures { SaysOf result out.old out.new (taking s out.old) }
{
    if !s.present {
        return Kept {
            answer: Answer::NoSave,
            save: s,
        };
    }
    let left = left_of(s);
    if out.len() < left {
        let n = out.len();
        hand_out(s, n, out);
        Kept {
            answer: Answer::Taken(n, false),
            save: Save { at: s.at + n, ..s },
        }
    } else {
        hand_out(s, left, out);
        Kept {
            answer: Answer::Taken(left, true),
            save: no_save(),
        }
    }
}
