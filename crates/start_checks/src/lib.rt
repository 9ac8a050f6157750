// What a start comes to, on a core in range (validation.rs): the checks in their order.
#![tactic(auto)]

ghost use Rattle.std.specs.Prelude.{◌≡◌, not, ◌&&◌, ◌≤◌, length};
ghost use Rattle.state.specs.Running.{in_progress};
ghost use Rattle.session.specs.Session.{is_of};
ghost use Rattle.validation.specs.Calls.{start_at};
ghost use Rattle.start_checks.specs.Way.{way_as, taken};

use state::{Answer, Core, Kind, Mark, Session};

// The mark of the digits with which a session begins, or the refusal: only code entry draws.
fn way_as(lent: bool, gives: bool, kind: Kind) -> Result<Mark, Answer>
    ensures { result ≡ way_as lent gives kind }
{
    match kind {
        Kind::InCarAction => Ok(Mark::Blank),
        Kind::CodeEntry if !lent => Err(Answer::NoRandomSource),
        Kind::CodeEntry if !gives => Err(Answer::RandomSpent),
        Kind::CodeEntry => Ok(Mark::Fresh),
    }
}

// A session runs, and it is not this phone's.
fn runs_for_other(s: Session, phone: &[u8]) -> bool
    ensures { result ≡ (in_progress s && not (is_of s phone.now)) }
{
    state::running::in_progress(s) && !session::is_of(s, phone)
}

// Decided before anything large is copied: the mark of the digits with which a session begins, or the refusal.
#[tactic(auto, using(crate::proofs::Laws::taken_as), unfolding(validation::specs::Calls::start_at, validation::specs::Calls::start_checks, state::specs::Checks::checked))]
pub fn way_at(
    core: Core,
    phone: &[u8],
    at: usize,
    clock: u64,
    lent: bool,
    gives: bool,
) -> Result<Mark, Answer>
    requires { length phone.now ≤ 32 }
    ensures { taken core phone.now at clock result ≡ start_at core phone.now at clock lent gives }
{
    if core.methods.count <= at {
        return Err(Answer::UnknownMethod);
    }
    if !policy::is_car_fingerprint_confirmed(core.policy.identity) {
        return Err(Answer::CarNotIdentified);
    }
    let until = core.validation.cooldown_until;
    if clock < until {
        return Err(Answer::CoolingDown(session_times::seconds_to(until, clock)));
    }
    if runs_for_other(core.validation.session, phone) {
        return Err(Answer::OtherPhoneSession);
    }
    let method = state::running::method_at(core.methods, at);
    if session::lost_read_write(core, method) {
        return Err(Answer::MethodUnavailable);
    }
    if !session::note_at(core.methods.available, at) {
        return Err(Answer::MethodNotAvailableNow);
    }
    way_as(lent, gives, method.kind)
}
