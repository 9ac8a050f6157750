// Entries of a log of frames, each a frame and its time in ms: whether a recorded one can be that of a journal.
#![tactic(auto)]

ghost use Rattle.std.specs.Prelude.{◌≡◌};
ghost use Rattle.log_entries.specs.Entries.{same_frame, entry, fits};

use frames::CanFrame;

// Whether two frames are equal in bus, kind, id, dlc and all eight bytes of data. Its contract says `==` in the words of `fits`.
#[tactic(auto, using(arrays::proofs::Laws::same_is_pointwise), unfolding(crate::specs::Entries::same_frame))]
fn same_frame(a: CanFrame, b: CanFrame) -> bool
    ensures { result ≡ same_frame a b }
{
    a == b
}

// Whether a frame seen by the recorder can be that of a journal entry: equal, and 0 to 50 ms later.
#[tactic(auto, unfolding(crate::specs::Entries::fits))]
pub fn is_fit(j: CanFrame, sent: u64, f: CanFrame, seen: u64) -> bool
    ensures { result ≡ fits (entry sent j) (entry seen f) }
{
    sent <= seen && seen - sent <= 50 && same_frame(j, f)
}
