// The store of validated phones: up to four cars, each with its list (phone_trust.rs). A call that changes it writes it anew,
// in canonical form.
#![tactic(auto)]

ghost use Rattle.std.specs.Prelude.{◌≡◌, not, ◌&&◌, [], ltb, length, drop, min, take, position};
ghost use Rattle.arrays.specs.Arrays.{same_bytes};
ghost use Rattle.phones.specs.Ids.{contains, any_in};
ghost use Rattle.phones.specs.Phones.{id_bytes, phones_of};
ghost use Rattle.saved_record.specs.Store.{car_of, laid_car, cars_of, store_of};
ghost use Rattle.validations.specs.Store.{record_for, phones_for, is_full};
ghost use Rattle.validations.specs.Places.{place_of, ListPasses};

use phones::{PhoneList, ShortId};
use saved_record::{CarPhones, SavedRecord, Store};

// No car, no phone.
pub fn no_validations() -> Store
    ensures { result ≡ store_of [] }
{
    saved_record::empty_store()
}

#[tactic(auto, unfolding(crate::specs::Store::record_for))]
pub fn record_for(s: Store) -> SavedRecord
    ensures { result ≡ record_for (cars_of s) }
{
    encode_record::encode_phone_validations(s)
}

// How many cars are in use.
#[tactic(auto, using(crate::proofs::Laws::cars_length, arrays::proofs::Laws::long_map))]
pub fn car_count(s: Store) -> usize
    ensures { result ≡ length (cars_of s) }
{
    saved_record::clamp_cars(s.count)
}

// The place of the first car with this digest. The digests are copied out: for a search in the cars the compiler would copy the store.
fn position_in(s: Store, car: [u8; 32]) -> Option<usize>
    ensures { result ≡ position (λ c. same_bytes c.car car) (take (min s.count 4) s.cars) }
{
    let first = s.cars[0].car;
    let second = s.cars[1].car;
    let third = s.cars[2].car;
    let fourth = s.cars[3].car;
    let digests = [first, second, third, fourth];
    digests[..saved_record::clamp_cars(s.count)]
        .iter()
        .position(|d| saved_record::same_car(*d, car))
}

// The place of the car with this digest; the number of cars if there is none.
pub fn place_of(s: Store, car: [u8; 32]) -> usize
    ensures { result ≡ place_of car (cars_of s) }
{
    position_in(s, car).unwrap_or(saved_record::clamp_cars(s.count))
}

// The phones of the car with this digest; none if it is not in the store.
#[tactic(auto, using(arrays::proofs::Laws::long_map))]
pub fn phones_for(s: Store, car: [u8; 32]) -> PhoneList
    ensures { phones_of result ≡ phones_for car (cars_of s) }
{
    let at = place_of(s, car);
    if at < car_count(s) {
        s.cars[at].phones
    } else {
        phones::empty_list()
    }
}

// Whether the list of the car with this digest passes a test; not if there is no such car. The four places are written out: a list
// at a running place would be copied (docs/BENCHMARKS.md).
fn list_passes<F: Fn(PhoneList) -> bool>(s: Store, car: [u8; 32], test: F) -> bool
    requires callable { F.IsAlwaysCallable test }
    ensures { ListPasses (F.post test) (phones_for car (cars_of s)) result }
{
    match position_in(s, car) {
        None => false,
        Some(0) => test(s.cars[0].phones),
        Some(1) => test(s.cars[1].phones),
        Some(2) => test(s.cars[2].phones),
        Some(_) => test(s.cars[3].phones),
    }
}

// Whether the car with this digest lists the phone.
pub fn car_lists(s: Store, car: [u8; 32], id: &[u8]) -> bool
    ensures { result ≡ contains id.now (phones_for car (cars_of s)) }
{
    list_passes(s, car, |list| phones::contains(list, id))
}

// Whether the car with this digest lists some phone of the list.
pub fn car_lists_any(s: Store, car: [u8; 32], others: PhoneList) -> bool
    ensures { result ≡ any_in (phones_of others) (phones_for car (cars_of s)) }
{
    list_passes(s, car, |list| phones::any_in(list, others))
}

// This car's list is full without the phone.
pub fn is_full(s: Store, car: [u8; 32], p: ShortId) -> bool
    ensures { result ≡ is_full (cars_of s) car (id_bytes p) }
{
    list_passes(s, car, |list| full_without(list, p))
}

// A list is full without the phone.
fn full_without(list: PhoneList, p: ShortId) -> bool
    ensures { result ≡ (ltb 31 (length (phones_of list)) && not (contains (id_bytes p) (phones_of list))) }
{
    31 < phones::count(list) && !phones::contains_id(list, p)
}

// A car with its list in canonical form.
#[tactic(auto, unfolding(saved_record::specs::Store::car_of, saved_record::specs::Store::laid_car))]
fn canonical_car(c: CarPhones) -> CarPhones
    ensures { result ≡ laid_car (car_of c) }
{
    CarPhones {
        phones: phones::canonical(c.phones),
        ..c
    }
}

// The cars from a place on, in canonical form.
pub fn laid_from(s: Store, from: usize) -> Store
    ensures { result ≡ store_of (drop from (cars_of s)) }
{
    let n = car_count(s);
    let cars = &s.cars[from.min(n)..n];
    let mut left = saved_record::empty_store();
    for (k, car) in cars.iter().enumerate() {
        left.cars[k] = canonical_car(*car);
    }
    left.count = cars.len();
    left
}

// The whole store, in canonical form.
pub fn canonical(s: Store) -> Store
    ensures { result ≡ store_of (cars_of s) }
{
    laid_from(s, 0)
}
