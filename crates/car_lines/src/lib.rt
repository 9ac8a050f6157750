// The lines that the listing program prints for a car.
#![tactic(auto)]

ghost use Rattle.std.specs.Prelude.{◌≡◌, ◌+◌, ◌≤◌, length};
ghost use Rattle.decimal.specs.Decimal.{decimal_of};
ghost use Rattle.hexadecimal.specs.Hex.{hex_of};
ghost use Rattle.saved_record.specs.SavedRecord.{car_part};
ghost use Rattle.saved_record.specs.Store.{car_of};
ghost use Rattle.car_lines.specs.Lines.{line, phone_lines, car_lines};
ghost use Rattle.car_lines.specs.Walk.{Wrote, WroteFrom, Stands, ids_from, place_from};

use reader::Field;
use saved_record::CarPhones;

// Where writing and reading stand.
#[derive(Clone, Copy, PartialEq, Eq)]
pub struct Places {
    pub end: usize,
    pub next: usize,
}

// Each `put_` function writes over `dst` from `at` on and answers the place after what it wrote.

pub fn put_text(dst: &mut [u8], at: usize, text: &[u8]) -> usize
    requires { at + length text.now ≤ length dst.old }
    ensures { Wrote dst.old at text.now dst.new result }
{
    arrays::put(dst, at, text);
    at + text.len()
}

// A line whose value is bytes in hexadecimal.
fn put_hex_line(dst: &mut [u8], at: usize, name: &[u8], bytes: &[u8]) -> usize
    requires { at + length (line name.now (hex_of bytes.now)) ≤ length dst.old }
    ensures { Wrote dst.old at (line name.now (hex_of bytes.now)) dst.new result }
{
    let from = put_text(dst, at, name);
    hexadecimal::put_hex(dst, from, bytes);
    put_text(dst, from + 2 * bytes.len(), b"\n")
}

// A line whose value is a number in decimal.
fn put_number_line(dst: &mut [u8], at: usize, name: &[u8], n: u64) -> usize
    requires { at + length (line name.now (decimal_of n)) ≤ length dst.old }
    ensures { Wrote dst.old at (line name.now (decimal_of n)) dst.new result }
{
    let from = put_text(dst, at, name);
    let end = decimal::put_decimal(dst, from, n);
    put_text(dst, end, b"\n")
}

// The lines of the first `count` ids that a reader meets in `saved` from place `from` on; it tells the place after them, too.
fn put_phones(dst: &mut [u8], at: usize, saved: &[u8], from: usize, count: usize) -> Places
    requires { at + length (phone_lines (ids_from count saved.now from)) ≤ length dst.old }
    ensures { WroteFrom dst.old at (phone_lines (ids_from count saved.now from)) dst.new (place_from count saved.now from) result }
{
    let mut places = Places {
        end: at,
        next: from,
    };
    for _ in 0..count {
        let Ok(Field { start, len, next }) = reader::field_at(saved, places.next) else {
            break;
        };
        let id = &saved[start..start + len];
        let end = put_hex_line(dst, places.end, b"phone=", id);
        places = Places { end, next };
    }
    places
}

// The lines of a car, whose part stands in `saved` from place `from` on; it tells the place after that part, too.
pub fn put_car(dst: &mut [u8], at: usize, saved: &[u8], from: usize, c: CarPhones) -> Places
    requires { Stands saved.now from (car_part (car_of c)) × (at + length (car_lines (car_of c)) ≤ length dst.old) }
    ensures { WroteFrom dst.old at (car_lines (car_of c)) dst.new (from + length (car_part (car_of c))) result }
{
    let count = phones::count(c.phones);
    let first = put_hex_line(dst, at, b"car=", &c.car);
    let second = put_number_line(dst, first, b"phones=", count as u64);
    put_phones(dst, second, saved, from + 33, count)
}
