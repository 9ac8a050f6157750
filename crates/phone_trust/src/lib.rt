// Who is paired, who is validated (pairing.rs, phone_trust.rs).
#![tactic(auto)]

ghost use Rattle.std.specs.Prelude.{◌≡◌};
ghost use Rattle.phones.specs.Ids.{contains};
ghost use Rattle.saved_record.specs.Store.{cars_of};
ghost use Rattle.state.specs.View.{lists_in};
ghost use Rattle.phone_trust.specs.Trust.{car_has_some_validated, is_paired, is_validated, validated_now, trust_of};

use saved_record::Store;
use state::{Identity, Phones};

// PhoneTrustLevel.
#[derive(Clone, Copy, PartialEq, Eq)]
pub enum Trust {
    NotBonded,
    Bonded,
    Validated,
}

#[tactic(auto, unfolding(crate::specs::Trust::is_paired))]
pub fn is_paired(p: Phones, id: &[u8]) -> bool
    ensures { result ≡ is_paired (lists_in p) id.now }
{
    phones::contains(p.paired, id)
}

// Whether the phone is validated for the car identified now; while no car is identified, none is.
#[tactic(auto, unfolding(crate::specs::Trust::validated_now, phones::specs::Ids::contains, phones::specs::Ids::some_of))]
fn validated_now(i: Identity, s: Store, id: &[u8]) -> bool
    ensures { result ≡ contains id.now (validated_now i (cars_of s)) }
{
    policy::is_car_fingerprint_confirmed(i) && validations::car_lists(s, i.car.digest, id)
}

#[tactic(auto, unfolding(crate::specs::Trust::is_validated))]
pub fn is_phone_validated(identity: Identity, p: Phones, id: &[u8]) -> bool
    ensures { result ≡ is_validated identity (lists_in p) id.now }
{
    !id.is_empty() && is_paired(p, id) && validated_now(identity, p.store, id)
}

#[tactic(auto, unfolding(crate::specs::Trust::car_has_some_validated, crate::specs::Trust::validated_now, phones::specs::Ids::any_in, phones::specs::Ids::some_of))]
pub fn car_has_validated_phone(identity: Identity, p: Phones) -> bool
    ensures { result ≡ car_has_some_validated identity (lists_in p) }
{
    policy::is_car_fingerprint_confirmed(identity)
        && validations::car_lists_any(p.store, identity.car.digest, p.paired)
}

#[tactic(auto, unfolding(crate::specs::Trust::trust_of))]
pub fn phone_trust_level(identity: Identity, p: Phones, id: &[u8]) -> Trust
    ensures { result ≡ trust_of identity (lists_in p) id.now }
{
    if !is_paired(p, id) {
        Trust::NotBonded
    } else if is_phone_validated(identity, p, id) {
        Trust::Validated
    } else {
        Trust::Bonded
    }
}
