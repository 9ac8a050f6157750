// The calls on the approval, on a core in range (can_access.rs).
#![tactic(auto)]

ghost use Rattle.std.specs.Prelude.{◌≡◌};
ghost use Rattle.policy_changes.specs.Changes.{with_access, with_approval};
ghost use Rattle.can_access.specs.Approval.{restore_approval, revoke_approval};
ghost use Rattle.can_access.specs.Approval as Approval;

use state::{Access, Answer, Car, Core, Policy, Said};

// The policy with another approval.
fn with_approval(p: Policy, approval: Car) -> Policy
    ensures { result ≡ with_access p (with_approval p.access approval) }
{
    policy_changes::with_access(
        p,
        Access {
            approval,
            ..p.access
        },
    )
}

#[tactic(auto, unfolding(crate::specs::Approval::approve, state::specs::Checks::checked))]
pub fn approve_can_read_write(core: Core) -> Said
    ensures { result ≡ Approval.approve core }
{
    if !policy::is_car_fingerprint_confirmed(core.policy.identity) {
        return state::replies::leave(core, Answer::CarNotIdentified);
    }
    let car = core.policy.identity.car;
    let p = with_approval(core.policy, car);
    let raised = state::replies::approval_changed(car, policy::is_can_read_only(p));
    state::replies::reply(state::parts::with_policy(core, p), Answer::Done, raised)
}

#[tactic(auto, unfolding(crate::specs::Approval::revoke_approval))]
pub fn revoke_can_read_write_approval(core: Core) -> Said
    ensures { result ≡ revoke_approval core }
{
    let none = state::replies::no_car();
    let p = with_approval(core.policy, none);
    let raised = state::replies::approval_changed(none, policy::is_can_read_only(p));
    state::replies::reply(state::parts::with_policy(core, p), Answer::Done, raised)
}

// A lent digest, or none.
#[tactic(auto, unfolding(crate::specs::Approval::known_or_none))]
fn known_or_none(car: Car) -> Car
    ensures { result ≡ Approval.known_or_none car }
{
    if car.known {
        car
    } else {
        state::replies::no_car()
    }
}

#[tactic(auto, unfolding(crate::specs::Approval::restore_approval))]
pub fn restore_can_read_write_approval(core: Core, approval: Car) -> Said
    ensures { result ≡ restore_approval core approval }
{
    let p = with_approval(core.policy, known_or_none(approval));
    policy_changes::policy_changed(core, Answer::Done, p)
}
