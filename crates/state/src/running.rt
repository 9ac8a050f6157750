// What runs: the kind of a method, the status of a session, and both together.
ghost use Rattle.std.specs.Prelude.{◌≡◌};
ghost use Rattle.state.specs.Running.{is_code, is_running, no_method, clean_method, method_at, in_progress, code_in_progress};

use crate::{Kind, Method, Methods, Session, Status};
use phones::ShortId;

pub fn is_code(k: Kind) -> bool
    ensures { result ≡ is_code k }
{
    matches!(k, Kind::CodeEntry)
}

pub fn is_running(s: Status) -> bool
    ensures { result ≡ is_running s }
{
    matches!(s, Status::InProgress)
}

// The method at a place; past the last place, one without an id.
#[tactic(auto, unfolding(crate::specs::Running::method_at))]
pub fn method_at(m: Methods, i: usize) -> Method
    ensures { result ≡ method_at m i }
{
    if i < 8 { m.list[i] } else { no_method() }
}

pub fn no_method() -> Method
    ensures { result ≡ no_method }
{
    Method {
        id: ShortId {
            bytes: [0; 32],
            len: 0,
        },
        kind: Kind::InCarAction,
        needs_approval: false,
    }
}

// The same method with zeros past the length of its id.
#[tactic(auto, unfolding(crate::specs::Running::clean_method))]
pub fn clean_method(m: Method) -> Method
    ensures { result ≡ clean_method m }
{
    Method {
        id: phones::clean(m.id),
        ..m
    }
}

// A session is there and InProgress.
#[tactic(auto, unfolding(crate::specs::Running::in_progress))]
pub fn in_progress(s: Session) -> bool
    ensures { result ≡ in_progress s }
{
    s.present && is_running(s.status)
}

// A CodeEntry session is InProgress.
#[tactic(auto, unfolding(crate::specs::Running::code_in_progress))]
pub fn code_in_progress(m: Methods, s: Session) -> bool
    ensures { result ≡ code_in_progress m s }
{
    in_progress(s) && is_code(method_at(m, s.method).kind)
}
