// A phone's validation taken out of the store: forgotten under every car, or pruned where it is not paired (phone_trust.rs). A car
// without phones leaves.
#![tactic(auto)]

ghost use Rattle.std.specs.Prelude.{◌≡◌, ◌≤◌, true, false, length, map};
ghost use Rattle.phones.specs.Ids.{contains, remove_all, retain_in, some_of, stays};
ghost use Rattle.phones.specs.Phones.{phones_of};
ghost use Rattle.saved_record.specs.SavedRecord.{CarIds};
ghost use Rattle.saved_record.specs.Store.{car_of, cars_of, store_of};
ghost use Rattle.state.specs.Replies.{nothing_raised, phone_access_changed};
ghost use Rattle.state.specs.View.{lists_in, listed_in};
ghost use Rattle.validations.specs.Store.{under_every, storing, loses_some};
ghost use Rattle.validations.specs.Store as Calls;
ghost use Rattle.forget_validations.specs.Every.{UnderEvery};

use phones::PhoneList;
use saved_record::{CarPhones, Store};
use state::{Answer, Listed, Phones};

// Whether some car lists the phone.
fn lists_phone(cars: &[CarPhones], id: &[u8]) -> bool
    ensures { result ≡ some_of (λ (c : CarIds). contains id.now c.phones) (map car_of cars.now) }
{
    cars.iter().any(|c| phones::contains(c.phones, id))
}

// The store with what is left of every list; a car without phones leaves.
fn under_every<F: Fn(PhoneList) -> PhoneList>(cars: &[CarPhones], left_of: F) -> Store
    requires callable { F.IsAlwaysCallable left_of }
    requires few { length cars.now ≤ 4 }
    ensures { UnderEvery (F.post left_of) (map car_of cars.now) result }
{
    let mut left = saved_record::empty_store();
    for c in cars {
        let phones = left_of(c.phones);
        if 0 < phones::count(phones) {
            left.cars[left.count] = CarPhones { phones, ..*c };
            left.count += 1;
        }
    }
    left
}

// The store without the phone.
fn without_phone(cars: &[CarPhones], id: &[u8]) -> Store
    requires { length cars.now ≤ 4 }
    ensures { result ≡ store_of (under_every (remove_all id.now) (map car_of cars.now)) }
{
    under_every(cars, |list| list_removals::remove_all(list, id))
}

// store_validations: the store changed.
fn stored(p: Phones, answer: Answer, store: Store) -> Listed
    ensures { result ≡ record { answer = answer; raised = phone_access_changed; stores = true; phones = record { paired = p.paired; store = store } } }
{
    Listed {
        answer,
        raised: state::replies::phone_access_changed(),
        stores: true,
        phones: Phones { store, ..p },
    }
}

// Nothing changed.
fn unchanged(p: Phones, answer: Answer) -> Listed
    ensures { result ≡ record { answer = answer; raised = nothing_raised; stores = false; phones = p } }
{
    Listed {
        answer,
        raised: state::replies::nothing_raised(),
        stores: false,
        phones: p,
    }
}

// The phone's validation goes under every car, with an answer; the pairings stay.
pub fn forgetting(p: Phones, answer: Answer, id: &[u8]) -> Listed
    ensures { result ≡ listed_in p (storing answer stays (Calls.forgetting (cars_of p.store) id.now)) }
{
    let cars = &p.store.cars[..saved_record::clamp_cars(p.store.count)];
    if lists_phone(cars, id) {
        stored(p, answer, without_phone(cars, id))
    } else {
        unchanged(p, answer)
    }
}

#[tactic(auto, unfolding(validations::specs::Store::forget))]
pub fn forget_phone_validation(p: Phones, id: &[u8]) -> Listed
    ensures { result ≡ listed_in p (Calls.forget (lists_in p) id.now) }
{
    forgetting(p, Answer::Done, id)
}

// Whether some phone of a car is not paired.
fn loses_some(c: &CarPhones, paired: PhoneList) -> bool
    ensures { result ≡ loses_some (phones_of paired) (car_of c.now) }
{
    phones::count(list_removals::retain_in(c.phones, paired)) != phones::count(c.phones)
}

// Whether some phone of some car is not paired.
fn some_unpaired(cars: &[CarPhones], paired: PhoneList) -> bool
    ensures { result ≡ some_of (loses_some (phones_of paired)) (map car_of cars.now) }
{
    cars.iter().any(|c| loses_some(c, paired))
}

// The store with the paired phones alone.
fn with_paired(cars: &[CarPhones], paired: PhoneList) -> Store
    requires { length cars.now ≤ 4 }
    ensures { result ≡ store_of (under_every (retain_in (phones_of paired)) (map car_of cars.now)) }
{
    under_every(cars, |list| list_removals::retain_in(list, paired))
}

pub fn prune_phone_validations(p: Phones) -> Listed
    ensures { result ≡ listed_in p (Calls.prune (lists_in p)) }
{
    let cars = &p.store.cars[..saved_record::clamp_cars(p.store.count)];
    if some_unpaired(cars, p.paired) {
        stored(p, Answer::Done, with_paired(cars, p.paired))
    } else {
        unchanged(p, Answer::Done)
    }
}
