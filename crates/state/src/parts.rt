// A core or a probe with one part changed. Policy and probe are set in place, as the parts of a policy are in policy_changes: after struct
// updates a turn, a frame that is heard and a platform that is noted copy the lists once more (docs/LOOK-BACK.md).
ghost use Rattle.std.specs.Prelude.{◌≡◌};
ghost use Rattle.state.specs.Parts.{with_methods, with_policy, with_peer, with_validation, with_probe, with_window};

use crate::{Core, Methods, Policy, Probe, Validation, Window};
use phones::ShortId;

pub fn with_methods(core: Core, methods: Methods) -> Core
    ensures { result ≡ with_methods core methods }
{
    Core { methods, ..core }
}

pub fn with_policy(mut core: Core, policy: Policy) -> Core
    ensures { result ≡ with_policy core policy }
{
    core.policy = policy;
    core
}

pub fn with_peer(core: Core, peer: ShortId) -> Core
    ensures { result ≡ with_peer core peer }
{
    Core { peer, ..core }
}

pub fn with_validation(core: Core, validation: Validation) -> Core
    ensures { result ≡ with_validation core validation }
{
    Core { validation, ..core }
}

pub fn with_probe(mut core: Core, probe: Probe) -> Core
    ensures { result ≡ with_probe core probe }
{
    core.probe = probe;
    core
}

pub fn with_window(probe: Probe, window: Window) -> Probe
    ensures { result ≡ with_window probe window }
{
    Probe { window, ..probe }
}
