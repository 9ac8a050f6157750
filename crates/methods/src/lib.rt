// The host's notes on the methods, on a core in range (validation.rs).
#![tactic(auto)]

ghost use Rattle.std.specs.Prelude.{◌≡◌};
ghost use Rattle.methods.specs.Notes.{is_place, note_available, note_continue};

use state::{Answer, Core, Methods, Said};

// A place of the methods, of which there are at most eight.
#[tactic(auto, unfolding(crate::specs::Notes::is_place))]
fn is_place(m: Methods, at: usize) -> bool
    ensures { result ≡ is_place m at }
{
    at < 8 && at < m.count
}

#[tactic(auto, unfolding(crate::specs::Notes::note_available, crate::specs::Notes::is_place))]
pub fn note_method_available(core: Core, at: usize, on: bool) -> Said
    ensures { result ≡ note_available core at on }
{
    let mut m = core.methods;
    if is_place(m, at) {
        m.available[at] = on;
        return state::replies::quiet(state::parts::with_methods(core, m), Answer::Done);
    }
    state::replies::leave(core, Answer::Done)
}

#[tactic(auto, unfolding(crate::specs::Notes::note_continue, crate::specs::Notes::is_place))]
pub fn note_method_can_continue(core: Core, at: usize, on: bool) -> Said
    ensures { result ≡ note_continue core at on }
{
    let mut m = core.methods;
    if is_place(m, at) {
        m.continues[at] = on;
        return state::replies::quiet(state::parts::with_methods(core, m), Answer::Done);
    }
    state::replies::leave(core, Answer::Done)
}
