// The calls of the probe, on frames, and the host's notes: one function for each. State by value in; answer, signals and state by value
// out. Each promise is an equation with `step` of definition/specs/Gate.antt, for every gate that is lent.
#![tactic(auto, using(outcomes::proofs::Laws::by_core), unfolding(definition::specs::Gate::said, definition::specs::Gate::says))]

ghost use Rattle.std.specs.Prelude.{◌≡◌};
ghost use Rattle.definition.specs.Gate.{open_identity_probe, close_identity_probe, allow_can_tx, heard_can_frame, note_platform_id, note_can_logging, note_can_fd_bus, note_method_available, note_method_can_continue, on_core, said, step, given};
ghost use Rattle.state.specs.View.{lists_in, view};
ghost use Rattle.phone_trust.specs.Trust.{is_validated};
ghost use Rattle.outcomes.specs.Served.{said_on};
ghost use Rattle.gate_frames.specs.Owner.{of_class};

use frames::{CanFrame, ProbeFrame, TxClass};
use state::{Gate, Outcome, Said};

pub fn open_identity_probe(
    g: Gate,
    bus: u8,
    frames: [ProbeFrame; 4],
    count: usize,
    clock: u64,
) -> Outcome
    ensures { given result ≡ step g (on_core (open_identity_probe bus frames count clock)) }
{
    let said = can_probe::open_identity_probe(g.core, bus, frames, count, clock);
    outcomes::settled(g, outcomes::said_on(g, said))
}

pub fn close_identity_probe(g: Gate) -> Outcome
    ensures { given result ≡ step g (on_core close_identity_probe) }
{
    let said = can_probe::close_identity_probe(g.core);
    outcomes::settled(g, outcomes::said_on(g, said))
}

// Whether the owner of a command is validated; a platform frame has none.
fn owner_validated(g: Gate, class: TxClass, owner: &[u8]) -> bool
    ensures { result ≡ of_class class (is_validated g.core.policy.identity (lists_in g.phones) owner.now) }
{
    match class {
        TxClass::Platform => false,
        TxClass::Command => {
            phone_trust::is_phone_validated(g.core.policy.identity, g.phones, owner)
        }
    }
}

// 25 first: nothing else is looked at on a gate out of range.
fn allowed(g: Gate, bus: u8, frame: CanFrame, class: TxClass, owner: &[u8], clock: u64) -> Said
    ensures { result ≡ said_on (view g) (said g.core (lists_in g.phones) (allow_can_tx bus frame class owner.now clock)) }
{
    if range::in_range(g) {
        let validated = owner_validated(g, class, owner);
        can_tx::allow_can_tx(g.core, bus, frame, class, validated, clock)
    } else {
        outcomes::out_of_range(g.core)
    }
}

// `owner` is the phone that a command is for; for a platform frame it is not looked at.
pub fn allow_can_tx(
    g: Gate,
    bus: u8,
    frame: CanFrame,
    class: TxClass,
    owner: &[u8],
    clock: u64,
) -> Outcome
    ensures { given result ≡ step g (on_core (allow_can_tx bus frame class owner.now clock)) }
{
    outcomes::settled(g, allowed(g, bus, frame, class, owner, clock))
}

pub fn heard_can_frame(g: Gate, bus: u8, clock: u64) -> Outcome
    ensures { given result ≡ step g (on_core (heard_can_frame bus clock)) }
{
    let said = can_probe::heard_can_frame(g.core, bus, clock);
    outcomes::settled(g, outcomes::said_on(g, said))
}

pub fn note_platform_id(g: Gate, number: u32) -> Outcome
    ensures { given result ≡ step g (on_core (note_platform_id number)) }
{
    let said = car_identity::note_platform_id(g.core, number);
    outcomes::settled(g, outcomes::said_on(g, said))
}

pub fn note_can_logging(g: Gate, on: bool) -> Outcome
    ensures { given result ≡ step g (on_core (note_can_logging on)) }
{
    let said = can::note_can_logging(g.core, on);
    outcomes::settled(g, outcomes::said_on(g, said))
}

pub fn note_can_fd_bus(g: Gate, bus: u8, on: bool) -> Outcome
    ensures { given result ≡ step g (on_core (note_can_fd_bus bus on)) }
{
    let said = can::note_can_fd_bus(g.core, bus, on);
    outcomes::settled(g, outcomes::said_on(g, said))
}

pub fn note_method_available(g: Gate, place: usize, on: bool) -> Outcome
    ensures { given result ≡ step g (on_core (note_method_available place on)) }
{
    let said = methods::note_method_available(g.core, place, on);
    outcomes::settled(g, outcomes::said_on(g, said))
}

pub fn note_method_can_continue(g: Gate, place: usize, on: bool) -> Outcome
    ensures { given result ≡ step g (on_core (note_method_can_continue place on)) }
{
    let said = methods::note_method_can_continue(g.core, place, on);
    outcomes::settled(g, outcomes::said_on(g, said))
}
