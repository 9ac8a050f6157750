// submit_validation_code, on a core in range (validation.rs).
#![tactic(auto)]

ghost use Rattle.std.specs.Prelude.{◌≡◌};
ghost use Rattle.validation.specs.Calls.{submit};
ghost use Rattle.validation.specs.Calls as Calls;

use state::{Answer, Core, Ended};

// The tick left the session as it was.
#[tactic(auto, unfolding(validation::specs::Calls::submitted))]
fn submitted(core: Core, phone: &[u8], clock: u64, right: bool, full: bool) -> Ended
    ensures { result ≡ Calls.submitted core phone.now clock right full }
{
    let s = core.validation.session;
    if !validation::ends::runs_for(s, phone) {
        let said = state::replies::notified(core, Answer::NoSession);
        return validation::ends::unvalidated(said);
    }
    let kind = state::running::method_at(core.methods, s.method).kind;
    judge::judge_as(core, clock, right, full, kind)
}

// `text`: the typed bytes are text; `right`: they are the code; `full`: this car's list is full without the session's phone.
#[tactic(auto, unfolding(validation::specs::Calls::submit, state::specs::Checks::checked))]
pub fn submit_validation_code(
    core: Core,
    phone: &[u8],
    clock: u64,
    text: bool,
    right: bool,
    full: bool,
) -> Ended
    ensures { result ≡ submit core phone.now clock text right full }
{
    if !text {
        return validation::ends::unvalidated(state::replies::leave(core, Answer::NotText));
    }
    match session::lapse_of(core, clock) {
        None => submitted(core, phone, clock, right, full),
        Some(status) => {
            let said = validation::ends::end_session(core, Answer::NoSession, status, clock);
            validation::ends::unvalidated(said)
        }
    }
}
