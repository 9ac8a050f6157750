// The calls of the identity probe, on a core in range (can_probe.rs).
#![tactic(auto)]

ghost use Rattle.std.specs.Prelude.{◌≡◌};
ghost use Rattle.can_probe.specs.Calls.{is_valid_probe, window_changed, open_probe, close_probe, heard};

use frames::ProbeFrame;
use state::{Answer, Core, Policy, Probe, Said};

#[tactic(auto, unfolding(crate::specs::Calls::is_valid_probe, range::specs::Range::within))]
fn is_valid_probe(p: Policy, bus: u8, frames: [ProbeFrame; 4], count: usize) -> bool
    ensures { result ≡ is_valid_probe p bus frames count }
{
    frames::bus_exists(bus)
        && !policy::is_can_fd_bus(p.buses, bus)
        && (1..=4).contains(&count)
        && probe_window::ids_in_range(frames, count)
}

#[tactic(auto, unfolding(crate::specs::Calls::window_changed))]
fn window_changed(core: Core, answer: Answer, b: Probe) -> Said
    ensures { result ≡ window_changed core answer b }
{
    let signals = state::replies::read_only_changed(policy::is_can_read_only(core.policy));
    state::replies::reply(state::parts::with_probe(core, b), answer, signals)
}

#[tactic(auto, unfolding(crate::specs::Calls::open_probe, state::specs::Checks::checked))]
pub fn open_identity_probe(
    core: Core,
    bus: u8,
    frames: [ProbeFrame; 4],
    count: usize,
    clock: u64,
) -> Said
    ensures { result ≡ open_probe core bus frames count clock }
{
    let b = core.probe;
    if !is_valid_probe(core.policy, bus, frames, count) {
        return state::replies::leave(core, Answer::Invalid);
    }
    if !probe_window::is_probe_needed(core.policy.identity) {
        return state::replies::leave(core, Answer::NotNeeded);
    }
    if core.policy.buses.logging {
        return state::replies::leave(core, Answer::Logging);
    }
    if !probe_window::is_bus_awake(b.heard, b.marks, bus, clock) {
        return state::replies::leave(core, Answer::BusAsleep);
    }
    if b.window.present {
        return state::replies::leave(core, Answer::Busy);
    }
    if 5 <= b.attempts {
        return state::replies::leave(core, Answer::NoAttemptsLeft);
    }
    let opened = Probe {
        window: probe_window::new_window(bus, frames, count, clock, b.relocks),
        attempts: b.attempts + 1,
        ..b
    };
    window_changed(core, Answer::Done, opened)
}

#[tactic(auto, unfolding(crate::specs::Calls::close_probe))]
pub fn close_identity_probe(core: Core) -> Said
    ensures { result ≡ close_probe core }
{
    if !core.probe.window.present {
        return state::replies::leave(core, Answer::No);
    }
    let closed = state::parts::with_window(core.probe, probe_window::no_window());
    window_changed(core, Answer::Yes, closed)
}

// note_can_rx.
#[tactic(auto, unfolding(crate::specs::Calls::heard))]
pub fn heard_can_frame(core: Core, bus: u8, clock: u64) -> Said
    ensures { result ≡ heard core bus clock }
{
    if frames::bus_exists(bus) {
        let b = probe_window::heard_at(core.probe, bus, clock);
        return state::replies::quiet(state::parts::with_probe(core, b), Answer::Done);
    }
    state::replies::leave(core, Answer::Done)
}
