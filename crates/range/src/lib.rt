// The range of a lent gate: out of it every call answers 25.
#![tactic(auto)]

ghost use Rattle.std.specs.Prelude.{◌≡◌, true, not, cond, ◌&&◌, length};
ghost use Rattle.saved_record.specs.Steps.{twice_at};
ghost use Rattle.state.specs.View.{car_in_range, store_in_range, view};
ghost use Rattle.range.specs.Range as Range;
ghost use Rattle.range.specs.Range.{settings_fit, method_fits, methods_in, methods_fit, session_fits, window_fits, core_fits, in_range};

use saved_record::{CarPhones, Store};
use state::{Core, Gate, Method, Methods, Session, Settings, Window};

#[tactic(auto, unfolding(crate::specs::Range::within))]
pub fn within(low: u64, high: u64, x: u64) -> bool
    ensures { result ≡ Range.within low high x }
{
    (low..=high).contains(&x)
}

#[tactic(auto, unfolding(crate::specs::Range::settings_fit))]
pub fn settings_fit(s: Settings) -> bool
    ensures { result ≡ settings_fit s }
{
    within(1, 9, s.digits as u64)
        && within(1, 20, s.tries as u64)
        && within(1, 86_400_000, s.session)
        && within(0, 86_400_000, s.cooldown)
        && within(0, 86_400_000, s.keep)
        && within(0, 32, s.bonded as u64)
}

// Every byte from 33 to 126.
#[tactic(auto, unfolding(crate::specs::Range::printable))]
fn printable(s: &[u8]) -> bool
    ensures { result ≡ Range.printable s.now }
{
    s.iter().all(|b| within(33, 126, u64::from(*b)))
}

#[tactic(auto, unfolding(crate::specs::Range::method_fits))]
fn method_fits(m: &Method) -> bool
    ensures { result ≡ method_fits m.now }
{
    within(1, 32, m.id.len as u64) && printable(m.id.used())
}

#[tactic(auto, unfolding(crate::specs::Range::methods_in, crate::specs::Range::all_fit))]
pub fn methods_in(list: [Method; 8], n: usize) -> bool
    ensures { result ≡ methods_in list n }
{
    n <= 8 && list[..n].iter().all(method_fits)
}

#[tactic(auto, unfolding(crate::specs::Range::methods_fit))]
pub fn methods_fit(m: Methods) -> bool
    ensures { result ≡ methods_fit m }
{
    methods_in(m.list, m.count)
}

#[tactic(auto, unfolding(crate::specs::Range::session_fits))]
fn session_fits(m: Methods, s: Session) -> bool
    ensures { result ≡ session_fits m s }
{
    !s.present || (phones::id_in_range(s.phone) && s.method < m.count)
}

#[tactic(auto, unfolding(crate::specs::Range::window_fits))]
fn window_fits(w: Window) -> bool
    ensures { result ≡ window_fits w }
{
    !w.present || within(1, 4, w.count as u64)
}

#[tactic(auto, unfolding(crate::specs::Range::core_fits, crate::specs::Range::tries_fit))]
fn core_fits(c: &Core) -> bool
    ensures { result ≡ core_fits c.now }
{
    settings_fit(c.settings)
        && methods_fit(c.methods)
        && phones::id_in_range(c.peer)
        && session_fits(c.methods, c.validation.session)
        && within(1, c.settings.tries as u64, c.validation.tries as u64)
        && window_fits(c.probe.window)
}

// A place that is not in use, or a car with 1 to 32 phones.
#[tactic(auto, unfolding(state::specs::View::car_in_range))]
fn place_fits(used: bool, c: &CarPhones) -> bool
    ensures { result ≡ cond used (car_in_range c.now) true }
{
    !used || (phones::count(c.phones) != 0 && phones::list_in_range(c.phones))
}

// No digest stands at two of the places in use. One function for this test and that of `saved_record::car_twice` would be called, and not
// put in its place, and every call would copy the store for it.
fn digests_differ(
    n: usize,
    first: [u8; 32],
    second: [u8; 32],
    third: [u8; 32],
    fourth: [u8; 32],
) -> bool
    ensures { result ≡ not (twice_at n first second third fourth) }
{
    if saved_record::is_car(1 < n, second, first) {
        return false;
    }
    if saved_record::is_car(2 < n, third, first) {
        return false;
    }
    if saved_record::is_car(3 < n, fourth, first) {
        return false;
    }
    if saved_record::is_car(2 < n, third, second) {
        return false;
    }
    if saved_record::is_car(3 < n, fourth, second) {
        return false;
    }
    if saved_record::is_car(3 < n, fourth, third) {
        return false;
    }
    true
}

// At most four cars, each in range, and no digest under two of them. The places are written out, as in `saved_record::car_twice`. The
// store is lent, since by value a car would be copied in every call of the gate; how many places it has is not known of what is lent.
fn store_in_range(s: &Store) -> bool
    requires four { length s.now.cars ≡ 4 }
    ensures { result ≡ store_in_range s.now }
{
    let n = s.count;
    if 4 < n {
        return false;
    }
    let cars = &s.cars;
    let one = &cars[0];
    let two = &cars[1];
    let three = &cars[2];
    let four = &cars[3];
    if place_fits(0 < n, one) {
        if place_fits(1 < n, two) {
            if place_fits(2 < n, three) {
                if place_fits(3 < n, four) {
                    let first = one.car;
                    let second = two.car;
                    let third = three.car;
                    let fourth = four.car;
                    return digests_differ(n, first, second, third, fourth);
                }
            }
        }
    }
    false
}

// Of a save that is open: the length of its record, and the position in it.
fn save_fits(present: bool, len: usize, at: usize) -> bool
    ensures { result ≡ cond present (Range.within 0 4358 len && Range.within 0 len at) true }
{
    !present || (within(0, 4358, len as u64) && within(0, len as u64, at as u64))
}

// How many frames wait, and the bus last served.
fn queue_fits(count: usize, last: u8) -> bool
    ensures { result ≡ (Range.within 0 16 count && Range.within 0 3 last) }
{
    within(0, 16, count as u64) && within(0, 3, u64::from(last))
}

// Whether a lent gate is served; otherwise every call answers 25.
#[tactic(auto, unfolding(state::specs::View::view, crate::specs::Range::save_fits, crate::specs::Range::queue_fits, crate::specs::Range::in_range))]
pub fn in_range(g: Gate) -> bool
    ensures { result ≡ in_range (view g) }
{
    core_fits(&g.core)
        && phones::list_in_range(g.phones.paired)
        && store_in_range(&g.phones.store)
        && save_fits(g.save.present, g.save.stored.len, g.save.at)
        && queue_fits(g.queue.count, g.queue.last)
}
