// What a code that was judged brings a running session, on a core in range (validation.rs): a try less, its failure, or its success.
#![tactic(auto)]

ghost use Rattle.std.specs.Prelude.{◌≡◌};
ghost use Rattle.validation.specs.Calls.{failed_core, wrong_answer, right_code, judge_as};
ghost use Rattle.validation.specs.Calls as Calls;

use state::{Answer, Core, Ended, Kind, Said, Status, Validation};

// The last try: Failed, the tries are full and the cooldown starts, before the reply is made.
#[tactic(auto, unfolding(validation::specs::Calls::failed_core))]
fn failed_core(core: Core, clock: u64) -> Core
    ensures { result ≡ failed_core core clock }
{
    let v = Validation {
        cooldown_until: session_times::saturating_add(clock, core.settings.cooldown),
        ..validation::ends::refilled(core, Status::Failed, clock)
    };
    state::parts::with_validation(core, v)
}

fn wrong_answer(core: Core, clock: u64) -> Answer
    ensures { result ≡ wrong_answer core clock }
{
    Answer::WrongCode(session::reply_of(core, core.validation.session, clock))
}

// A wrong code: a try less, or the session fails.
#[tactic(auto, unfolding(validation::specs::Calls::wrong, validation::specs::Calls::tried_core))]
fn wrong(core: Core, clock: u64) -> Said
    ensures { result ≡ Calls.wrong core clock }
{
    if core.validation.tries <= 1 {
        let c = failed_core(core, clock);
        return validation::ends::finished(c, wrong_answer(c, clock));
    }
    let v = Validation {
        tries: core.validation.tries - 1,
        ..core.validation
    };
    let c = state::parts::with_validation(core, v);
    state::replies::notified(c, wrong_answer(c, clock))
}

// A right code, unless this car's list is full.
#[tactic(auto, unfolding(validation::specs::Calls::right_code, validation::specs::Calls::succeed))]
fn right_code(core: Core, clock: u64, full: bool) -> Ended
    ensures { result ≡ right_code core clock full }
{
    if full {
        return validation::ends::unvalidated(state::replies::notified(core, Answer::ListFull));
    }
    let c = validation::ends::succeeded_core(core, clock);
    let reply = session::reply_of(c, c.validation.session, clock);
    validation::ends::succeed(c, Answer::Session(reply))
}

// Only a session of code entry has a code.
#[tactic(auto, unfolding(validation::specs::Calls::judge))]
pub fn judge_as(core: Core, clock: u64, right: bool, full: bool, kind: Kind) -> Ended
    ensures { result ≡ judge_as core clock right full kind }
{
    match kind {
        Kind::InCarAction => {
            let said = state::replies::notified(core, Answer::NotCodeEntry);
            validation::ends::unvalidated(said)
        }
        Kind::CodeEntry if right => right_code(core, clock, full),
        Kind::CodeEntry => validation::ends::unvalidated(wrong(core, clock)),
    }
}
