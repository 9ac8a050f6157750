// New gate, and the calls of a session: one function for each. State by value in; answer, signals and state by value
// out. Each promise is an equation with `step` of definition/specs/Gate.antt, for every gate that is lent.
#![tactic(auto)]

ghost use Rattle.std.specs.Prelude.{◌≡◌, cond};
ghost use Rattle.definition.specs.Gate.{NewFrom, cancel_validation, complete_validation_action, tick_validation, start_validation, submit_validation_code, on_session, full_for, step, given};
ghost use Rattle.state.specs.View.{view};
ghost use Rattle.text.specs.Text.{is_text, right};
ghost use Rattle.validation.specs.Calls.{start, submit};
ghost use Rattle.outcomes.specs.Served.{out_of_range, ended_on};

use state::{Core, Ended, Gate, Method, Outcome, Said, Settings};

pub fn new_gate(settings: Settings, methods: [Method; 8], count: usize) -> Outcome
    ensures { NewFrom result settings methods count }
{
    new_gate::new_gate(settings, methods, count)
}

// This car's list is full without the session's phone. It stays a call of its own, for the speed of the calls of a session
// (docs/LOOK-BACK.md).
#[tactic(auto, unfolding(state::specs::View::view))]
#[inline(never)]
fn full_for(g: Gate) -> bool
    ensures { result ≡ full_for (view g) }
{
    let car = g.core.validation.session.car;
    let phone = g.core.validation.session.phone;
    validations::is_full(g.phones.store, car, phone)
}

// 25 first: nothing else is looked at on a gate out of range.
fn started(
    fits: bool,
    core: Core,
    phone: &[u8],
    method: &[u8],
    clock: u64,
    lent: bool,
    gives: bool,
) -> Said
    ensures { result ≡ cond fits (start core phone.now method.now clock lent gives) (out_of_range core) }
{
    if fits {
        start::start_validation(core, phone, method, clock, lent, gives)
    } else {
        outcomes::out_of_range(core)
    }
}

// `random`: lent random bytes; what is given depends on them only if the start comes to its draw.
pub fn start_validation(g: Gate, phone: &[u8], method: &[u8], clock: u64, random: &[u8]) -> Outcome
    ensures { given result ≡ step g (start_validation phone.now method.now clock random.now) }
{
    let drawn = draw::draw(random, g.core.settings.digits);
    let fits = range::in_range(g);
    let lent = 0 < random.len();
    let said = started(fits, g.core, phone, method, clock, lent, drawn.is_some());
    outcomes::drew(g, drawn.unwrap_or([0; 9]), said)
}

// 25 first.
#[tactic(auto, unfolding(outcomes::specs::Served::ended_on, state::specs::View::view))]
fn submitted(g: Gate, phone: &[u8], typed: &[u8], clock: u64) -> Ended
    ensures { result ≡ ended_on (view g) (submit g.core phone.now clock (is_text typed.now) (right g.code g.core.settings.digits typed.now) (full_for (view g))) }
{
    if range::in_range(g) {
        let text = text::is_text(typed);
        let right = text::is_right(g.code, g.core.settings.digits, typed);
        let full = full_for(g);
        submit::submit_validation_code(g.core, phone, clock, text, right, full)
    } else {
        validation::ends::unvalidated(outcomes::out_of_range(g.core))
    }
}

pub fn submit_validation_code(g: Gate, phone: &[u8], typed: &[u8], clock: u64) -> Outcome
    ensures { given result ≡ step g (submit_validation_code phone.now typed.now clock) }
{
    outcomes::ended(g, submitted(g, phone, typed, clock))
}

pub fn cancel_validation(g: Gate, phone: &[u8], clock: u64) -> Outcome
    ensures { given result ≡ step g (on_session (cancel_validation phone.now clock)) }
{
    let said = complete::cancel_validation(g.core, phone, clock);
    let e = validation::ends::unvalidated(said);
    outcomes::ended(g, outcomes::ended_on(g, e))
}

pub fn complete_validation_action_at(g: Gate, number: u32, clock: u64) -> Outcome
    ensures { given result ≡ step g (on_session (complete_validation_action number clock)) }
{
    let full = full_for(g);
    let e = complete::complete_validation_action_at(g.core, number, clock, full);
    outcomes::ended(g, outcomes::ended_on(g, e))
}

pub fn tick_validation(g: Gate, clock: u64) -> Outcome
    ensures { given result ≡ step g (on_session (tick_validation clock)) }
{
    let said = validation::ends::tick_validation(g.core, clock);
    let e = validation::ends::unvalidated(said);
    outcomes::ended(g, outcomes::ended_on(g, e))
}
