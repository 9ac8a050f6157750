// A saved record read: the store that it says, from version 1 or 2.
#![tactic(auto)]

ghost use Rattle.std.specs.Prelude.{◌≡◌, ◌+◌, ◌≤◌, length};
ghost use Rattle.saved_record.specs.SavedRecord.{read_car, read_cars, read_two, nothing_after, judged, decoded};
ghost use Rattle.saved_record.specs.Store.{restored};
ghost use Rattle.decode_record.specs.Steps.{car_read, part_of};

use phone_fields::FieldsError;
use phones::PhoneList;
use saved_record::{CarPhones, RecordError, Store};

// The car that some bytes begin with, and how many bytes its part takes. A car over the limits has its digest, and no phones.
#[derive(Clone, Copy)]
struct CarRead {
    over: bool,
    car: CarPhones,
    used: usize,
}

// The part of a car whose phones are read.
#[tactic(auto, using(crate::proofs::Reading::car_copied, crate::proofs::Reading::digest_length))]
fn whole_part(rest: &[u8], phones: PhoneList, used: usize, over: bool) -> CarRead
    requires { 33 + used ≤ length rest.now }
    ensures { result ≡ part_of rest.now phones used over }
{
    let mut digest = [0u8; 32];
    arrays::put(&mut digest, 0, &rest[..32]);
    CarRead {
        over,
        car: CarPhones {
            car: digest,
            phones,
        },
        used: 33 + used,
    }
}

// Reads a car's part from the front of what remains. What follows it is not looked at.
#[tactic(auto, using(crate::proofs::Reading::part_none))]
fn read_car(rest: &[u8]) -> Option<CarRead>
    ensures { result ≡ car_read (length rest.now) (read_car rest.now) }
{
    if rest.len() < 33 || rest[32] == 0 {
        return None;
    }
    match phone_fields::read_fields(usize::from(rest[32]), &rest[33..]) {
        Ok(read) => Some(whole_part(rest, read.phones, read.used, false)),
        Err(FieldsError::Malformed) => None,
        Err(FieldsError::TooLarge(used)) => {
            Some(whole_part(rest, phones::empty_list(), used, true))
        }
    }
}

// Reads so many cars, each from what remains after the one before it; nothing may follow them. Past a limit the digests are still
// gathered: one that occurs again is said first.
fn read_cars(count: usize, part: &[u8]) -> Result<Store, RecordError>
    requires { count ≤ 4 }
    ensures { result ≡ restored (judged (nothing_after (read_cars count part.now))) }
{
    let mut cars = [saved_record::empty_car(); 4];
    let mut over = false;
    let mut rest = part;
    for i in 0..count {
        let Some(read) = read_car(rest) else {
            return Err(RecordError::Malformed);
        };
        cars[i] = read.car;
        over = over || read.over;
        rest = &rest[read.used..];
    }
    if !rest.is_empty() {
        return Err(RecordError::Malformed);
    }
    let store = Store { cars, count };
    if saved_record::car_twice(store) {
        return Err(RecordError::CarTwice);
    }
    if over {
        return Err(RecordError::TooLarge);
    }
    Ok(store)
}

// Reads what stands after the byte of version 2: the number of cars, and then the cars.
#[tactic(auto, using(crate::proofs::Reading::two_cars, crate::proofs::Reading::two_refused))]
fn read_two(rest: &[u8]) -> Result<Store, RecordError>
    ensures { result ≡ restored (judged (nothing_after (read_two rest.now))) }
{
    match rest {
        [n @ 1..=4, part @ ..] => read_cars(usize::from(*n), part),
        _ => Err(RecordError::Malformed), // 22, not 23: that is about phones
    }
}

// What any bytes say as a record.
#[tactic(auto, using(crate::proofs::Reading::version_one, crate::proofs::Reading::version_two, crate::proofs::Reading::version_other))]
pub fn decode_phone_validations(bytes: &[u8]) -> Result<Store, RecordError>
    ensures { result ≡ restored (decoded bytes.now) }
{
    match bytes {
        [1, part @ ..] => read_cars(1, part),
        [2, rest @ ..] => read_two(rest),
        _ => Err(RecordError::Malformed),
    }
}
