// How a running session ends.
ghost use Rattle.std.specs.Prelude.{◌≡◌, true};
ghost use Rattle.state.specs.Replies.{no_challenge, challenge_changed, finish};
ghost use Rattle.validation.specs.Calls.{session_is, end_session, runs_for, succeeded_core};
ghost use Rattle.validation.specs.Calls as Calls;

use state::{Answer, Core, Ended, Said, Session, Status, Validation};

pub fn session_is(core: Core, s: Session) -> Core
    ensures { result ≡ session_is core s }
{
    let v = Validation {
        session: s,
        ..core.validation
    };
    state::parts::with_validation(core, v)
}

// The end of a session is raised, and its digits go.
#[tactic(auto, unfolding(state::specs::Replies::finish, state::specs::Replies::challenge_changed))]
pub fn finished(core: Core, answer: Answer) -> Said
    ensures { result ≡ finish core answer (challenge_changed no_challenge) }
{
    let raised = state::replies::challenge_changed(state::replies::no_challenge());
    state::replies::finish(core, answer, raised)
}

// after_change: the running session ended.
#[tactic(auto, unfolding(crate::specs::Calls::end_session))]
pub fn end_session(core: Core, answer: Answer, status: Status, clock: u64) -> Said
    ensures { result ≡ end_session core answer status clock }
{
    let s = session::ended_as(core.validation.session, status, clock);
    finished(session_is(core, s), answer)
}

// It ends by itself: its time is over, its car or its method is gone.
#[tactic(auto, unfolding(crate::specs::Calls::tick))]
pub fn tick_validation(core: Core, clock: u64) -> Said
    ensures { result ≡ Calls.tick core clock }
{
    match session::lapse_of(core, clock) {
        None => state::replies::leave(core, Answer::Done),
        Some(status) => end_session(core, Answer::Done, status, clock),
    }
}

// The session runs and is this phone's.
#[tactic(auto, unfolding(crate::specs::Calls::runs_for))]
pub fn runs_for(s: Session, phone: &[u8]) -> bool
    ensures { result ≡ runs_for s phone.now }
{
    state::running::in_progress(s) && session::is_of(s, phone)
}

// The session ends, and the tries left are full.
#[tactic(auto, unfolding(crate::specs::Calls::refilled))]
pub fn refilled(core: Core, status: Status, clock: u64) -> Validation
    ensures { result ≡ Calls.refilled core status clock }
{
    Validation {
        session: session::ended_as(core.validation.session, status, clock),
        tries: core.settings.tries,
        ..core.validation
    }
}

// The session ended, but for whom it validates.
#[tactic(auto, unfolding(crate::specs::Calls::succeeded_core))]
pub fn succeeded_core(core: Core, clock: u64) -> Core
    ensures { result ≡ succeeded_core core clock }
{
    let v = refilled(core, Status::Succeeded, clock);
    state::parts::with_validation(core, v)
}

// The session of `after` succeeded, and its phone is to be validated for its car.
#[tactic(auto, unfolding(state::specs::Replies::finish, state::specs::Replies::challenge_changed))]
pub fn succeed(after: Core, answer: Answer) -> Ended
    ensures { result ≡ record { said = finish after answer (challenge_changed no_challenge); validates = true } }
{
    Ended {
        said: finished(after, answer),
        validates: true,
    }
}

// No phone is validated.
pub fn unvalidated(said: Said) -> Ended
    ensures { result ≡ Calls.unvalidated said }
{
    Ended {
        said,
        validates: false,
    }
}
