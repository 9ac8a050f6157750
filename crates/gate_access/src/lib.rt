// The calls on the approval, the dev lock, the identity and the vehicle's flag: one function for each. State by value in; answer, signals and state by value
// out. Each promise is an equation with `step` of definition/specs/Gate.antt, for every gate that is lent.
#![tactic(auto, using(outcomes::proofs::Laws::by_core), unfolding(definition::specs::Gate::said, definition::specs::Gate::says))]

ghost use Rattle.std.specs.Prelude.{◌≡◌};
ghost use Rattle.definition.specs.Gate.{approve_can_read_write, revoke_can_read_write_approval, restore_can_read_write_approval, set_can_dev_write_unlocked, declare_production_build, confirm_car_identity, revoke_car_identity, confirm_car_fingerprint, set_can_read_only, on_core, step, given};

use state::{Car, Gate, Outcome};

pub fn approve_can_read_write(g: Gate) -> Outcome
    ensures { given result ≡ step g (on_core approve_can_read_write) }
{
    let said = can_access::approve_can_read_write(g.core);
    outcomes::settled(g, outcomes::said_on(g, said))
}

pub fn revoke_can_read_write_approval(g: Gate) -> Outcome
    ensures { given result ≡ step g (on_core revoke_can_read_write_approval) }
{
    let said = can_access::revoke_can_read_write_approval(g.core);
    outcomes::settled(g, outcomes::said_on(g, said))
}

pub fn restore_can_read_write_approval(g: Gate, approval: Car) -> Outcome
    ensures { given result ≡ step g (on_core (restore_can_read_write_approval approval)) }
{
    let said = can_access::restore_can_read_write_approval(g.core, approval);
    outcomes::settled(g, outcomes::said_on(g, said))
}

pub fn set_can_dev_write_unlocked(g: Gate, unlocked: bool) -> Outcome
    ensures { given result ≡ step g (on_core (set_can_dev_write_unlocked unlocked)) }
{
    let said = dev_lock::set_can_dev_write_unlocked(g.core, unlocked);
    outcomes::settled(g, outcomes::said_on(g, said))
}

pub fn declare_production_build(g: Gate) -> Outcome
    ensures { given result ≡ step g (on_core declare_production_build) }
{
    let said = dev_lock::declare_production_build(g.core);
    outcomes::settled(g, outcomes::said_on(g, said))
}

pub fn confirm_car_identity(g: Gate) -> Outcome
    ensures { given result ≡ step g (on_core confirm_car_identity) }
{
    let said = car_identity::confirm_car_identity(g.core);
    outcomes::settled(g, outcomes::said_on(g, said))
}

pub fn revoke_car_identity(g: Gate) -> Outcome
    ensures { given result ≡ step g (on_core revoke_car_identity) }
{
    let said = car_identity::revoke_car_identity(g.core);
    outcomes::settled(g, outcomes::said_on(g, said))
}

pub fn confirm_car_fingerprint(g: Gate, fingerprint: &[u8]) -> Outcome
    ensures { given result ≡ step g (on_core (confirm_car_fingerprint fingerprint.now)) }
{
    let said = car_identity::confirm_car_fingerprint(g.core, fingerprint);
    outcomes::settled(g, outcomes::said_on(g, said))
}

pub fn set_can_read_only(g: Gate, enabled: bool) -> Outcome
    ensures { given result ≡ step g (on_core (set_can_read_only enabled)) }
{
    let said = can::set_can_read_only(g.core, enabled);
    outcomes::settled(g, outcomes::said_on(g, said))
}
