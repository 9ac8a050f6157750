// start_validation, on a core in range (validation.rs).
#![tactic(auto)]

ghost use Rattle.std.specs.Prelude.{◌≡◌, ℕ, List};
ghost use Rattle.phones.specs.Phones.{id_of};
ghost use Rattle.validation.specs.Calls.{new_session, challenge_for};
ghost use Rattle.validation.specs.Calls as Calls;

use phones::ShortId;
use state::{Answer, Challenge, Core, Kind, Mark, Said, Session, Status, Validation};

// A session as it begins, of the phone with this id.
#[tactic(auto, unfolding(validation::specs::Calls::new_session))]
fn new_session(core: Core, id: ShortId, at: usize, clock: u64) -> Session
    ensures { (phone : List ℕ) → id ≡ id_of phone → result ≡ new_session core phone at clock }
{
    // An array that is a field cannot stand in a literal.
    let car = core.policy.identity.car.digest;
    Session {
        present: true,
        number: core.validation.next,
        phone: id,
        method: at,
        car,
        deadline: session_times::saturating_add(clock, core.settings.session),
        status: Status::InProgress,
        ended: 0,
    }
}

#[tactic(auto, unfolding(validation::specs::Calls::challenge_for))]
fn challenge_for(core: Core, at: usize, kind: Kind) -> Challenge
    ensures { result ≡ challenge_for core at kind }
{
    Challenge {
        running: true,
        session: core.validation.next,
        method: at,
        length: if state::running::is_code(kind) {
            core.settings.digits
        } else {
            0
        },
        ..state::replies::no_challenge()
    }
}

// A session begins, in the place of whatever session is stored.
#[tactic(auto, unfolding(validation::specs::Calls::begin))]
fn begin(core: Core, id: ShortId, at: usize, clock: u64, mark: Mark) -> Said
    ensures { (phone : List ℕ) → id ≡ id_of phone → result ≡ Calls.begin core phone at clock mark }
{
    let session = new_session(core, id, at, clock);
    let kind = state::running::method_at(core.methods, at).kind;
    let v = Validation {
        session,
        next: session_times::next_number(core.validation.next),
        ..core.validation
    };
    let c = state::parts::with_validation(core, v);
    Said {
        answer: Answer::Session(session::reply_of(c, session, clock)),
        raised: state::replies::challenge_changed(challenge_for(core, at, kind)),
        shows: mark,
        core: c,
        code: mark,
    }
}

// `lent`: some random byte is lent; `gives`: the draw gives a code.
#[tactic(auto, unfolding(validation::specs::Calls::start, validation::specs::Calls::start_at, validation::specs::Calls::start_checks, state::specs::Checks::checked))]
pub fn start_validation(
    core: Core,
    phone: &[u8],
    method: &[u8],
    clock: u64,
    lent: bool,
    gives: bool,
) -> Said
    ensures { result ≡ Calls.start core phone.now method.now clock lent gives }
{
    let Some(id) = phones::make_id(phone) else {
        return state::replies::leave(core, Answer::IdTooLong);
    };
    let at = session::place_of(core.methods, method);
    match start_checks::way_at(core, phone, at, clock, lent, gives) {
        Err(answer) => state::replies::leave(core, answer),
        Ok(mark) => begin(core, id, at, clock, mark),
    }
}
