// Cancel and complete, on a core in range (validation.rs).
#![tactic(auto)]

ghost use Rattle.std.specs.Prelude.{◌≡◌};
ghost use Rattle.validation.specs.Calls as Calls;

use state::{Answer, Core, Ended, Said, Status};
use validation::ends;

#[tactic(auto, unfolding(validation::specs::Calls::cancel, state::specs::Checks::checked))]
pub fn cancel_validation(core: Core, phone: &[u8], clock: u64) -> Said
    ensures { result ≡ Calls.cancel core phone.now clock }
{
    if !ends::runs_for(core.validation.session, phone) {
        return state::replies::leave(core, Answer::NoSession);
    }
    ends::end_session(core, Answer::Done, Status::Cancelled, clock)
}

// This session runs, and it is an in-car action.
#[tactic(auto, unfolding(validation::specs::Calls::is_action))]
fn is_action(core: Core, number: u32) -> bool
    ensures { result ≡ Calls.is_action core number }
{
    let s = core.validation.session;
    state::running::in_progress(s)
        && s.number == number
        && !state::running::is_code(state::running::method_at(core.methods, s.method).kind)
}

#[tactic(auto, unfolding(validation::specs::Calls::completed, validation::specs::Calls::succeed, validation::specs::Calls::succeeded_core))]
fn completed(core: Core, number: u32, clock: u64, full: bool) -> Ended
    ensures { result ≡ Calls.completed core number clock full }
{
    if !is_action(core, number) {
        ends::unvalidated(state::replies::leave(core, Answer::No))
    } else if full {
        ends::unvalidated(state::replies::leave(core, Answer::ListFull))
    } else {
        ends::succeed(ends::succeeded_core(core, clock), Answer::Yes)
    }
}

// `full`: this car's list is full without the session's phone.
#[tactic(auto, unfolding(validation::specs::Calls::complete))]
pub fn complete_validation_action_at(core: Core, number: u32, clock: u64, full: bool) -> Ended
    ensures { result ≡ Calls.complete core number clock full }
{
    match session::lapse_of(core, clock) {
        None => completed(core, number, clock, full),
        Some(status) => {
            let said = ends::end_session(core, Answer::No, status, clock);
            ends::unvalidated(said)
        }
    }
}
