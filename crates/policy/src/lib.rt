// What the policy tells: identity, approval, locks, reasons (can.rs, can_access.rs).
#![tactic(auto)]

ghost use Rattle.std.specs.Prelude.{◌≡◌};
ghost use Rattle.policy.specs.Policy.{fingerprint_confirmed, identified_car, is_identified, dev_lock, dev_unlocked, approved_car, allows_read_write, is_read_only, is_fd_bus, is_bus_read_only, approval_of, approval_reason, reason};

use state::{Access, Buses, Car, Identity, Policy};

// CanReadWriteApproval: the approval compared with the identified car.
#[derive(Clone, Copy, PartialEq, Eq)]
pub enum Approval {
    NotApproved,
    AwaitingCar,
    Approved,
    OtherCar,
}

#[tactic(auto, unfolding(crate::specs::Policy::fingerprint_confirmed))]
pub fn is_car_fingerprint_confirmed(i: Identity) -> bool
    ensures { result ≡ fingerprint_confirmed i }
{
    i.confirmed && i.car.known
}

#[tactic(auto, unfolding(crate::specs::Policy::identified_car))]
pub fn identified_car(i: Identity) -> Car
    ensures { result ≡ identified_car i }
{
    if is_car_fingerprint_confirmed(i) {
        i.car
    } else {
        state::replies::no_car()
    }
}

// Whether this car is the one identified now.
#[tactic(auto, unfolding(crate::specs::Policy::is_identified))]
pub fn is_identified(i: Identity, digest: [u8; 32]) -> bool
    ensures { result ≡ is_identified i digest }
{
    is_car_fingerprint_confirmed(i) && arrays::same_bytes(&i.car.digest, &digest)
}

#[tactic(auto, unfolding(crate::specs::Policy::dev_lock))]
pub fn has_can_dev_write_lock(a: Access) -> bool
    ensures { result ≡ dev_lock a }
{
    !a.production
}

#[tactic(auto, unfolding(crate::specs::Policy::dev_unlocked))]
pub fn is_can_dev_write_unlocked(a: Access) -> bool
    ensures { result ≡ dev_unlocked a }
{
    !a.production && a.unlocked
}

#[tactic(auto, unfolding(crate::specs::Policy::approved_car))]
fn approved_car(i: Identity, a: Access) -> bool
    ensures { result ≡ approved_car i a }
{
    a.approval.known && arrays::same_bytes(&a.approval.digest, &i.car.digest)
}

#[tactic(auto, unfolding(crate::specs::Policy::allows_read_write))]
pub fn allows_read_write(p: Policy) -> bool
    ensures { result ≡ allows_read_write p }
{
    is_car_fingerprint_confirmed(p.identity)
        && approved_car(p.identity, p.access)
        && (p.access.production || p.access.unlocked)
}

// It stays a call of its own: put in its place it makes the query of the same name copy the gate (docs/LOOK-BACK.md).
#[tactic(auto, unfolding(crate::specs::Policy::is_read_only))]
#[inline(never)]
pub fn is_can_read_only(p: Policy) -> bool
    ensures { result ≡ is_read_only p }
{
    p.buses.vehicle_read_only || p.buses.logging || !p.identity.confirmed || !allows_read_write(p)
}

#[tactic(auto, unfolding(crate::specs::Policy::is_fd_bus))]
pub fn is_can_fd_bus(b: Buses, bus: u8) -> bool
    ensures { result ≡ is_fd_bus b bus }
{
    bus < 4 && b.fd[usize::from(bus)]
}

#[tactic(auto, unfolding(crate::specs::Policy::is_bus_read_only))]
pub fn is_can_bus_read_only(p: Policy, bus: u8) -> bool
    ensures { result ≡ is_bus_read_only p bus }
{
    is_can_read_only(p) || is_can_fd_bus(p.buses, bus)
}

#[tactic(auto, unfolding(crate::specs::Policy::approval_of, crate::specs::Policy::approved_car))]
pub fn can_read_write_approval(i: Identity, a: Access) -> Approval
    ensures { result ≡ approval_of i a }
{
    if !a.approval.known {
        Approval::NotApproved
    } else if !is_car_fingerprint_confirmed(i) {
        Approval::AwaitingCar
    } else if approved_car(i, a) {
        Approval::Approved
    } else {
        Approval::OtherCar
    }
}

fn approval_reason(a: Access, approval: Approval) -> u8
    ensures { result ≡ approval_reason a approval }
{
    match approval {
        Approval::NotApproved | Approval::AwaitingCar => 5,
        Approval::Approved if a.production || a.unlocked => 7,
        Approval::Approved => 6,
        Approval::OtherCar => 4,
    }
}

// 1 to 7 in the source's order, 0 while the gate is read-write.
#[tactic(auto, unfolding(crate::specs::Policy::reason))]
pub fn can_read_only_reason(p: Policy) -> u8
    ensures { result ≡ reason p }
{
    if !is_can_read_only(p) {
        0
    } else if p.buses.logging {
        1
    } else if !p.identity.confirmed {
        2
    } else if !is_car_fingerprint_confirmed(p.identity) {
        3
    } else {
        approval_reason(p.access, can_read_write_approval(p.identity, p.access))
    }
}
