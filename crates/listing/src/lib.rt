// What the listing program prints for a record.
#![tactic(auto)]

ghost use Rattle.std.specs.Prelude.{◌≡◌, ◌≤◌, length};
ghost use Rattle.saved_record.specs.SavedRecord.{car_parts};
ghost use Rattle.saved_record.specs.Store.{cars_of};
ghost use Rattle.car_lines.specs.Walk.{Stands};
ghost use Rattle.listing.specs.Listing.{accepted_lines, refused_lines, listed, listing_of};
ghost use Rattle.listing.specs.Steps.{first_car};

use car_lines::Places;
use saved_record::Store;

// The lines with their length; zeros past it. No heap, so they stand in an array with room for the longest listing.
#[derive(Clone, Copy)]
pub struct Listing {
    pub bytes: [u8; 9414],
    pub len: usize,
}

fn refused() -> Listing
    ensures { result ≡ listed refused_lines }
{
    let mut bytes = [0u8; 9414];
    let len = car_lines::put_text(&mut bytes, 0, b"answer=refused\n");
    Listing { bytes, len }
}

// The lines of a record that is accepted, with these cars, whose parts stand in it from place `from` on.
fn accepted(saved: &[u8], from: usize, store: Store) -> Listing
    requires { Stands saved.now from (car_parts (cars_of store)) × (length (accepted_lines (cars_of store)) ≤ 9414) }
    ensures { result ≡ listed (accepted_lines (cars_of store)) }
{
    let mut bytes = [0u8; 9414];
    let end = car_lines::put_text(&mut bytes, 0, b"answer=ok\n");
    let mut places = Places { end, next: from };
    for car in &store.cars[..saved_record::clamp_cars(store.count)] {
        places = car_lines::put_car(&mut bytes, places.end, saved, places.next, *car);
    }
    Listing {
        bytes,
        len: places.end,
    }
}

// The place of the first car in a record: after the version, and in version 2 after the number of cars.
#[tactic(auto, unfolding(crate::specs::Steps::first_car))]
fn first_car(saved: &[u8]) -> usize
    ensures { result ≡ first_car saved.now }
{
    match *saved {
        [] => 0,
        [1, ..] => 1,
        _ => 2,
    }
}

// The lines of a record. A longer input than 8 KiB is refused by its length alone.
pub fn list_record(input: &[u8]) -> Listing
    ensures { result ≡ listing_of input.now }
{
    if 8192 < input.len() {
        return refused();
    }
    match decode_record::decode_phone_validations(input) {
        Ok(store) => accepted(input, first_car(input), store),
        Err(_) => refused(),
    }
}
