// The paired phones, and the cars of a store with the phones validated for each.
#![tactic(auto, unfolding(replay_lines::specs::Fields::put_fields, replay_page::specs::Page::item, replay_page::specs::Page::flag, replay_page::specs::Page::word, replay_page::specs::Page::known, saved_record::specs::Store::car_of, crate::specs::Cars::no_car, crate::specs::Cars::car, crate::specs::Cars::lists))]

ghost use Rattle.std.specs.Prelude.{◌≡◌};
ghost use Rattle.phones.specs.Phones.{phones_of};
ghost use Rattle.saved_record.specs.Store.{car_of, cars_of};
ghost use Rattle.replay_page.specs.Page.{page};
ghost use Rattle.replay_cars.specs.Cars.{no_car, car, cars, lists};

use phones::PhoneList;
use replay_lines::fields::{Field, put_field, put_fields};
use replay_lines::key::Key;
use replay_lines::word::Word;
use saved_record::{CarPhones, Store};

fn put_no_car(out: &mut [u8], at: usize) -> usize
    ensures { page out.new result ≡ no_car (page out.old at) }
{
    let fields = [
        Field::Word(Key::ValidatedCar, Word::None),
        Field::Key(Key::Validated),
    ];
    put_fields(out, at, b"", &fields)
}

fn put_car(out: &mut [u8], at: usize, c: CarPhones) -> usize
    ensures { page out.new result ≡ car (car_of c) (page out.old at) }
{
    let fields = [
        Field::Known(Key::ValidatedCar, true),
        Field::Key(Key::Validated),
    ];
    let k = put_fields(out, at, &c.car, &fields);
    replay_lines::parts::put_phones(out, k, c.phones)
}

fn put_cars(out: &mut [u8], at: usize, s: Store) -> usize
    ensures { page out.new result ≡ cars (cars_of s) (page out.old at) }
{
    let n = saved_record::clamp_cars(s.count);
    if n == 0 {
        return put_no_car(out, at);
    }
    let mut k = at;
    for i in 0..n {
        k = put_car(out, k, s.cars[i]);
    }
    k
}

pub fn put_lists(out: &mut [u8], at: usize, paired: PhoneList, store: Store) -> usize
    ensures { page out.new result ≡ lists (phones_of paired) (cars_of store) (page out.old at) }
{
    let k = put_field(out, at, b"", Field::Key(Key::Paired));
    let k = replay_lines::parts::put_phones(out, k, paired);
    put_cars(out, k, store)
}
