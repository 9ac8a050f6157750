// The calls on the platform and the car's fingerprint, on a core in range (can.rs, can_access.rs).
#![tactic(auto)]

ghost use Rattle.std.specs.Prelude.{◌≡◌};
ghost use Rattle.car_identity.specs.CarIdentity.{confirm_fingerprint, confirm_platform, note_platform, revoke_platform};

use state::{Answer, Buses, Car, Core, Identity, Policy, Said};

#[tactic(auto, unfolding(crate::specs::CarIdentity::confirm_platform))]
pub fn confirm_car_identity(core: Core) -> Said
    ensures { result ≡ confirm_platform core }
{
    let identity = Identity {
        confirmed: true,
        ..core.policy.identity
    };
    let p = policy_changes::with_identity(core.policy, identity);
    policy_changes::policy_changed(core, Answer::Done, p)
}

#[tactic(auto, unfolding(crate::specs::CarIdentity::revoke_platform))]
pub fn revoke_car_identity(core: Core) -> Said
    ensures { result ≡ revoke_platform core }
{
    let c = state::parts::with_probe(core, policy_changes::relocked(core.probe));
    let p = Policy {
        identity: Identity {
            confirmed: false,
            car: state::replies::no_car(),
            ..core.policy.identity
        },
        buses: Buses {
            vehicle_read_only: true,
            ..core.policy.buses
        },
        ..core.policy
    };
    policy_changes::policy_changed(c, Answer::Done, p)
}

#[tactic(auto, unfolding(crate::specs::CarIdentity::confirm_fingerprint, state::specs::Checks::checked))]
pub fn confirm_car_fingerprint(core: Core, fingerprint: &[u8]) -> Said
    ensures { result ≡ confirm_fingerprint core fingerprint.now }
{
    if 4096 < fingerprint.len() {
        return state::replies::leave(core, Answer::TooLarge);
    }
    let identity = core.policy.identity;
    if fingerprint.is_empty() || !identity.confirmed {
        return state::replies::leave(core, Answer::No);
    }
    // One of this length has a digest.
    let digest = car_digest::car_digest(identity.platform, fingerprint).unwrap_or([0; 32]);
    let car = Car {
        known: true,
        digest,
    };
    let p = policy_changes::with_identity(core.policy, Identity { car, ..identity });
    policy_changes::policy_changed(core, Answer::Yes, p)
}

#[tactic(auto, unfolding(crate::specs::CarIdentity::note_platform))]
pub fn note_platform_id(core: Core, number: u32) -> Said
    ensures { result ≡ note_platform core number }
{
    let identity = Identity {
        platform: number,
        ..core.policy.identity
    };
    let p = policy_changes::with_identity(core.policy, identity);
    state::replies::quiet(state::parts::with_policy(core, p), Answer::Done)
}
