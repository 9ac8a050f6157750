// The calls on the buses: the vehicle's flag and the host's notes, on a core in range (can.rs).
#![tactic(auto)]

ghost use Rattle.std.specs.Prelude.{◌≡◌};
ghost use Rattle.can.specs.Can.{note_fd_bus, note_logging, set_read_only};
ghost use Rattle.can.specs.Can as Can;

use state::{Answer, Buses, Core, Policy, Said};

// What the vehicle's flag becomes.
#[tactic(auto, unfolding(crate::specs::Can::lock_asked))]
fn lock_asked(p: Policy, enabled: bool) -> bool
    ensures { result ≡ Can.lock_asked p enabled }
{
    enabled || p.buses.logging || !policy::is_car_fingerprint_confirmed(p.identity)
}

#[tactic(auto, unfolding(crate::specs::Can::set_read_only))]
pub fn set_can_read_only(core: Core, enabled: bool) -> Said
    ensures { result ≡ set_read_only core enabled }
{
    let buses = Buses {
        vehicle_read_only: lock_asked(core.policy, enabled),
        ..core.policy.buses
    };
    let p = policy_changes::with_buses(core.policy, buses);
    let answer = state::replies::yes_no(policy::is_can_read_only(p));
    if enabled {
        let c = state::parts::with_probe(core, policy_changes::relocked(core.probe));
        return policy_changes::policy_changed(c, answer, p);
    }
    policy_changes::policy_changed(core, answer, p)
}

#[tactic(auto, unfolding(crate::specs::Can::note_logging))]
pub fn note_can_logging(core: Core, on: bool) -> Said
    ensures { result ≡ note_logging core on }
{
    let buses = Buses {
        logging: on,
        ..core.policy.buses
    };
    let p = policy_changes::with_buses(core.policy, buses);
    state::replies::quiet(state::parts::with_policy(core, p), Answer::Done)
}

// Nothing for a bus above 3.
#[tactic(auto, unfolding(crate::specs::Can::note_fd_bus))]
pub fn note_can_fd_bus(core: Core, bus: u8, on: bool) -> Said
    ensures { result ≡ note_fd_bus core bus on }
{
    if bus < 4 {
        let mut buses = core.policy.buses;
        buses.fd[usize::from(bus)] = on;
        let p = policy_changes::with_buses(core.policy, buses);
        return state::replies::quiet(state::parts::with_policy(core, p), Answer::Done);
    }
    state::replies::leave(core, Answer::Done)
}
