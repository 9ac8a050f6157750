// A phone validated for a car: add_phone_validation (phone_trust.rs).
#![tactic(auto)]

ghost use Rattle.std.specs.Prelude.{◌≡◌, [], ◌∷◌, ◌++◌, ◌<◌, length};
ghost use Rattle.phones.specs.Phones.{id_bytes};
ghost use Rattle.saved_record.specs.Store.{cars_of, store_of};
ghost use Rattle.state.specs.View.{laid_store};
ghost use Rattle.validations.specs.Store.{displaced, validating};
ghost use Rattle.add_validation.specs.Laid.{PhonesPut, LastPut};

use phones::{PhoneList, ShortId};
use saved_record::{CarPhones, Store};

// The car at a place has these phones now, a canonical list.
fn put_phones(s: Store, at: usize, phones: PhoneList) -> Store
    requires { at < length (cars_of s) }
    ensures { PhonesPut s at phones result }
{
    let mut all = validations::canonical(s);
    all.cars[at].phones = phones;
    all
}

// One car more, behind fewer than four.
fn put_last(mut s: Store, c: CarPhones) -> Store
    requires { s.count < 4 }
    ensures { LastPut s c result }
{
    s.cars[s.count] = c;
    s.count += 1;
    s
}

// A car that is not in the store comes last; a fifth displaces the first.
fn add_car(s: Store, car: [u8; 32], p: ShortId) -> Store
    ensures { result ≡ store_of (displaced (cars_of s) ++ (record { car = car; phones = id_bytes p ∷ [] } ∷ [])) }
{
    let others = if 3 < validations::car_count(s) {
        validations::laid_from(s, 1)
    } else {
        validations::canonical(s)
    };
    let phones = phones::append(phones::empty_list(), p);
    put_last(others, CarPhones { car, phones })
}

// add_phone_validation.
pub fn validate(s: Store, car: [u8; 32], p: ShortId) -> Store
    ensures { result ≡ laid_store s (validating (cars_of s) car (id_bytes p)) }
{
    let at = validations::place_of(s, car);
    if validations::car_count(s) <= at {
        return add_car(s, car, p);
    }
    let list = s.cars[at].phones;
    if phones::contains_id(list, p) {
        return s;
    }
    let more = phones::append(list, p);
    if phones::count(list) < phones::count(more) {
        put_phones(s, at, more)
    } else {
        s
    }
}
