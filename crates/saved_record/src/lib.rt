// The store of validated phones by car, and its saved record.
#![tactic(auto)]

ghost use Rattle.std.specs.Prelude.{◌≡◌, ◌&&◌, [], min};
ghost use Rattle.arrays.specs.Arrays.{same_bytes};
ghost use Rattle.saved_record.specs.SavedRecord.{no_record, twice};
ghost use Rattle.saved_record.specs.Store.{empty_car, cars_of, store_of};
ghost use Rattle.saved_record.specs.Steps.{twice_at};

use phones::PhoneList;

// A car's digest, and the phones that are validated for it.
#[derive(Clone, Copy)]
pub struct CarPhones {
    pub car: [u8; 32],
    pub phones: PhoneList,
}

// The cars in use are the first `count`, in order of first validation.
#[derive(Clone, Copy)]
pub struct Store {
    pub cars: [CarPhones; 4],
    pub count: usize,
}

// A record with its length; zeros past it.
#[derive(Clone, Copy)]
pub struct SavedRecord {
    pub bytes: [u8; 4358],
    pub len: usize,
}

// Why a record says no store.
#[derive(Clone, Copy, PartialEq, Eq)]
pub enum RecordError {
    Malformed,
    CarTwice,
    TooLarge,
}

// A count of cars, at most 4.
pub fn clamp_cars(n: usize) -> usize
    ensures { result ≡ min n 4 }
{
    n.min(4)
}

#[tactic(auto, unfolding(crate::specs::Store::empty_car))]
pub fn empty_car() -> CarPhones
    ensures { result ≡ empty_car }
{
    CarPhones {
        car: [0; 32],
        phones: phones::empty_list(),
    }
}

#[tactic(auto, unfolding(crate::specs::Store::store_of, arrays::specs::Arrays::padded))]
pub fn empty_store() -> Store
    ensures { result ≡ store_of [] }
{
    Store {
        cars: [empty_car(); 4],
        count: 0,
    }
}

// Whether two digests are equal.
pub fn same_car(a: [u8; 32], b: [u8; 32]) -> bool
    ensures { result ≡ same_bytes a b }
{
    arrays::same_bytes(&a, &b)
}

// Whether a car is in use and has this digest.
pub fn is_car(used: bool, theirs: [u8; 32], car: [u8; 32]) -> bool
    ensures { result ≡ (used && same_bytes theirs car) }
{
    used && same_car(theirs, car)
}

// Whether one digest stands at two of the places in use.
#[tactic(auto, unfolding(crate::specs::Steps::twice_at))]
fn digest_twice(
    n: usize,
    first: [u8; 32],
    second: [u8; 32],
    third: [u8; 32],
    fourth: [u8; 32],
) -> bool
    ensures { result ≡ twice_at n first second third fourth }
{
    is_car(1 < n, second, first)
        || is_car(2 < n, third, first)
        || is_car(3 < n, fourth, first)
        || is_car(2 < n, third, second)
        || is_car(3 < n, fourth, second)
        || is_car(3 < n, fourth, third)
}

// Whether two cars in use have one digest. The places are written out, here and where a call looks for its car: at a running place
// the array would be copied whole.
#[tactic(auto, using(crate::proofs::Laws::twice_at_lem, arrays::proofs::Laws::long_map))]
pub fn car_twice(store: Store) -> bool
    ensures { result ≡ twice (cars_of store) }
{
    let [first, second, third, fourth] = store.cars;
    digest_twice(store.count, first.car, second.car, third.car, fourth.car)
}

#[tactic(auto, unfolding(crate::specs::SavedRecord::no_record, crate::specs::SavedRecord::record_of, arrays::specs::Arrays::padded))]
pub fn no_record() -> SavedRecord
    ensures { result ≡ no_record }
{
    SavedRecord {
        bytes: [0; 4358],
        len: 0,
    }
}
