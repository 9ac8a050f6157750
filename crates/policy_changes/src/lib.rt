// A policy with one part changed, what is raised for it, and the relock count (can.rs, can_probe.rs).
#![tactic(auto)]

ghost use Rattle.std.specs.Prelude.{◌≡◌};
ghost use Rattle.policy_changes.specs.Changes.{with_access, with_buses, with_identity};
ghost use Rattle.policy_changes.specs.Changes as Changes;

use state::{Access, Answer, Buses, Core, Identity, Policy, Probe, Said};

pub fn with_identity(mut p: Policy, identity: Identity) -> Policy
    ensures { result ≡ with_identity p identity }
{
    p.identity = identity;
    p
}

pub fn with_access(mut p: Policy, access: Access) -> Policy
    ensures { result ≡ with_access p access }
{
    p.access = access;
    p
}

pub fn with_buses(mut p: Policy, buses: Buses) -> Policy
    ensures { result ≡ with_buses p buses }
{
    p.buses = buses;
    p
}

// The core with another policy, and the read-only signals. As a call of its own it makes its callers copy the gate (docs/LOOK-BACK.md).
#[tactic(auto, unfolding(crate::specs::Changes::policy_changed))]
#[inline(always)]
pub fn policy_changed(core: Core, answer: Answer, policy: Policy) -> Said
    ensures { result ≡ Changes.policy_changed core answer policy }
{
    let signals = state::replies::read_only_changed(policy::is_can_read_only(policy));
    state::replies::reply(state::parts::with_policy(core, policy), answer, signals)
}

// note_relock: the count wraps.
#[tactic(auto, unfolding(crate::specs::Changes::relocked))]
pub fn relocked(p: Probe) -> Probe
    ensures { result ≡ Changes.relocked p }
{
    Probe {
        relocks: p.relocks.wrapping_add(1),
        ..p
    }
}
