// The saved record of a store, written as version 2.
#![tactic(auto)]

ghost use Rattle.std.specs.Prelude.{◌≡◌, ◌+◌, ◌≤◌, length};
ghost use Rattle.saved_record.specs.SavedRecord.{encoded, record_of};
ghost use Rattle.saved_record.specs.Store.{car_of, cars_of};
ghost use Rattle.encode_record.specs.Steps.{PutPart};

use saved_record::{CarPhones, SavedRecord, Store};

// Writes a car's part at `at`, its digest, a count and its phones, where there is room for the longest, and tells the place
// after it.
fn put_car(c: CarPhones, out: &mut [u8], at: usize) -> usize
    requires { at + 1089 ≤ length out.old }
    ensures { PutPart out.old at (car_of c) out.new result }
{
    arrays::put(out, at, &c.car);
    out[at + 32] = phones::count(c.phones) as u8;
    phone_fields::put_fields(c.phones, out, at + 33)
}

// The record of a store; zero bytes where it is empty.
pub fn encode_phone_validations(store: Store) -> SavedRecord
    ensures { result ≡ record_of (encoded (cars_of store)) }
{
    let n = saved_record::clamp_cars(store.count);
    if n == 0 {
        return saved_record::no_record();
    }
    let mut bytes = [0; 4358];
    bytes[0] = 2;
    bytes[1] = n as u8;
    let mut len = 2;
    for car in &store.cars[..n] {
        len = put_car(*car, &mut bytes, len);
    }
    SavedRecord { bytes, len }
}
