// The calls on the dev lock, on a core in range (can_access.rs).
#![tactic(auto)]

ghost use Rattle.std.specs.Prelude.{◌≡◌};
ghost use Rattle.dev_lock.specs.DevLock.{set_dev_unlocked, declare_production};

use state::{Access, Answer, Core, Said};

#[tactic(auto, unfolding(crate::specs::DevLock::set_dev_unlocked, state::specs::Checks::checked))]
pub fn set_can_dev_write_unlocked(core: Core, unlocked: bool) -> Said
    ensures { result ≡ set_dev_unlocked core unlocked }
{
    if core.policy.access.production {
        return state::replies::leave(core, Answer::NoDevLock);
    }
    let access = Access {
        unlocked,
        ..core.policy.access
    };
    let p = policy_changes::with_access(core.policy, access);
    policy_changes::policy_changed(core, Answer::Done, p)
}

#[tactic(auto, unfolding(crate::specs::DevLock::declare_production))]
pub fn declare_production_build(core: Core) -> Said
    ensures { result ≡ declare_production core }
{
    let access = Access {
        production: true,
        ..core.policy.access
    };
    let p = policy_changes::with_access(core.policy, access);
    policy_changes::policy_changed(core, Answer::Done, p)
}
