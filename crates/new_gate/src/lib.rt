// New gate: read-only, with the source's starting statics.
#![tactic(auto)]

ghost use Rattle.std.specs.Prelude.{◌≡◌, take, ◌&&◌, [], map};
ghost use Rattle.arrays.specs.Arrays.{padded};
ghost use Rattle.phones.specs.Phones.{id_of};
ghost use Rattle.state.specs.Running.{no_method, clean_method};
ghost use Rattle.range.specs.Range.{settings_fit, methods_in};
ghost use Rattle.state.specs.declared.Answer.TheVariants.{BadSettings};
ghost use Rattle.new_gate.specs.New.{no_session, new_policy, new_probe, new_methods, new_core, least_settings, made_gate, new_gate};

use phones::ShortId;
use state::{
    Access, Answer, Buses, Core, Gate, Identity, Method, Methods, Outcome, Phones, Policy, Probe,
    Queue, Session, Settings, Status, Validation,
};

#[tactic(auto, unfolding(phones::specs::Phones::id_of, arrays::specs::Arrays::padded))]
fn no_id() -> ShortId
    ensures { result ≡ id_of [] }
{
    ShortId {
        bytes: [0; 32],
        len: 0,
    }
}

fn no_session() -> Session
    ensures { result ≡ no_session }
{
    Session {
        present: false,
        number: 0,
        phone: no_id(),
        method: 0,
        car: [0; 32],
        deadline: 0,
        status: Status::InProgress,
        ended: 0,
    }
}

fn new_policy() -> Policy
    ensures { result ≡ new_policy }
{
    Policy {
        identity: Identity {
            platform: 0,
            confirmed: false,
            car: state::replies::no_car(),
        },
        access: Access {
            approval: state::replies::no_car(),
            unlocked: false,
            production: false,
        },
        buses: Buses {
            vehicle_read_only: true,
            logging: false,
            fd: [false; 4],
        },
    }
}

fn new_probe() -> Probe
    ensures { result ≡ new_probe }
{
    Probe {
        window: probe_window::no_window(),
        attempts: 0,
        relocks: 0,
        heard: [false; 4],
        marks: [0; 4],
    }
}

// The methods in use, with zeros past the length of each id, and without an id past them.
pub fn used_methods(list: [Method; 8], count: usize) -> [Method; 8]
    ensures { result ≡ padded 8 no_method (take count (map clean_method list)) }
{
    let mut kept = [state::running::no_method(); 8];
    for i in 0..count.min(8) {
        kept[i] = state::running::clean_method(list[i]);
    }
    kept
}

// Each may start and go on.
#[tactic(auto, unfolding(crate::specs::New::new_methods))]
fn new_methods(list: [Method; 8], count: usize) -> Methods
    ensures { result ≡ new_methods list count }
{
    Methods {
        list: used_methods(list, count),
        count,
        available: [true; 8],
        continues: [true; 8],
    }
}

#[tactic(auto, unfolding(crate::specs::New::new_core))]
fn new_core(settings: Settings, methods: Methods) -> Core
    ensures { result ≡ new_core settings methods }
{
    Core {
        settings,
        methods,
        policy: new_policy(),
        peer: no_id(),
        validation: Validation {
            session: no_session(),
            cooldown_until: 0,
            next: 1,
            tries: settings.tries,
        },
        probe: new_probe(),
    }
}

fn made_gate(answer: Answer, core: Core) -> Outcome
    ensures { result ≡ made_gate (record { answer = answer; core = core }) }
{
    Outcome {
        answer,
        signals: state::replies::no_signals(),
        gate: Gate {
            core,
            phones: Phones {
                paired: phones::empty_list(),
                store: validations::no_validations(),
            },
            save: save::no_save(),
            queue: Queue { count: 0, last: 3 },
            code: [0; 9],
        },
    }
}

// 25: no methods, each setting at its least.
#[tactic(auto, unfolding(crate::specs::New::new_methods))]
fn least_gate(list: [Method; 8]) -> Outcome
    ensures { result ≡ made_gate (record { answer = BadSettings; core = new_core least_settings (new_methods [] 0) }) }
{
    let settings = Settings {
        digits: 1,
        tries: 1,
        session: 1,
        cooldown: 0,
        keep: 0,
        bonded: 0,
    };
    made_gate(
        Answer::BadSettings,
        new_core(settings, new_methods(list, 0)),
    )
}

fn fits(settings: Settings, list: [Method; 8], count: usize) -> bool
    ensures { result ≡ (settings_fit settings && methods_in list count) }
{
    range::settings_fit(settings) && range::methods_in(list, count)
}

#[tactic(auto, unfolding(crate::specs::New::new_gate, crate::specs::New::made_core))]
pub fn new_gate(settings: Settings, list: [Method; 8], count: usize) -> Outcome
    ensures { result ≡ new_gate settings list count }
{
    if fits(settings, list, count) {
        made_gate(Answer::Done, new_core(settings, new_methods(list, count)))
    } else {
        least_gate(list)
    }
}
