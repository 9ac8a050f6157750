// What a session shows, and its ends (validation.rs).
#![tactic(auto)]

ghost use Rattle.std.specs.Prelude.{◌≡◌};
ghost use Rattle.session.specs.Session.{seconds_of, reply_of, ended_as, is_of, lost_read_write, note_at, cannot_go_on, lapse_of, place_of};

use state::{Core, Method, Methods, Session, SessionReply, Status};

// What is told of a running session only.
#[tactic(auto, unfolding(crate::specs::Session::seconds_of))]
fn seconds_of(s: Session, clock: u64) -> u32
    ensures { result ≡ seconds_of s clock }
{
    if state::running::is_running(s.status) {
        session_times::seconds_to(s.deadline, clock)
    } else {
        0
    }
}

// session_proto; the tries are the gate's.
#[tactic(auto, unfolding(crate::specs::Session::reply_of))]
pub fn reply_of(core: Core, s: Session, clock: u64) -> SessionReply
    ensures { result ≡ reply_of core s clock }
{
    let kind = state::running::method_at(core.methods, s.method).kind;
    let code = state::running::is_code(kind);
    SessionReply {
        method: s.method,
        kind,
        status: s.status,
        length: if code { core.settings.digits } else { 0 },
        tries: if code { core.validation.tries } else { 0 },
        seconds: seconds_of(s, clock),
        cooldown: session_times::seconds_to(core.validation.cooldown_until, clock),
    }
}

// end_session.
#[tactic(auto, unfolding(crate::specs::Session::ended_as))]
pub fn ended_as(s: Session, status: Status, clock: u64) -> Session
    ensures { result ≡ ended_as s status clock }
{
    Session {
        status,
        ended: clock,
        ..s
    }
}

#[tactic(auto, unfolding(crate::specs::Session::is_of))]
pub fn is_of(s: Session, phone: &[u8]) -> bool
    ensures { result ≡ is_of s phone.now }
{
    phones::id_is(s.phone, phone)
}

#[tactic(auto, unfolding(crate::specs::Session::lost_read_write))]
pub fn lost_read_write(core: Core, m: Method) -> bool
    ensures { result ≡ lost_read_write core m }
{
    m.needs_approval && policy::is_can_read_only(core.policy)
}

#[tactic(auto, unfolding(crate::specs::Session::note_at))]
pub fn note_at(notes: [bool; 8], i: usize) -> bool
    ensures { result ≡ note_at notes i }
{
    i < 8 && notes[i]
}

#[tactic(auto, unfolding(crate::specs::Session::cannot_go_on))]
fn cannot_go_on(core: Core, s: Session) -> bool
    ensures { result ≡ cannot_go_on core s }
{
    !policy::is_identified(core.policy.identity, s.car)
        || lost_read_write(core, state::running::method_at(core.methods, s.method))
        || !note_at(core.methods.continues, s.method)
}

// The status with which a tick ends the session, if it does. One that cannot go on is cancelled, also at its deadline.
#[tactic(auto, unfolding(crate::specs::Session::lapse_of))]
pub fn lapse_of(core: Core, clock: u64) -> Option<Status>
    ensures { result ≡ lapse_of core clock }
{
    let s = core.validation.session;
    if !state::running::in_progress(s) {
        None
    } else if cannot_go_on(core, s) {
        Some(Status::Cancelled)
    } else if s.deadline <= clock {
        Some(Status::TimedOut)
    } else {
        None
    }
}

// The place of the first method with this id; past those in use if there is none.
pub fn place_of(m: Methods, id: &[u8]) -> usize
    ensures { result ≡ place_of m id.now }
{
    m.list
        .iter()
        .take(m.count)
        .position(|method| phones::id_is(method.id, id))
        .unwrap_or(m.count.min(8))
}
