// Frames that wait to be sent, in a lent list of sixteen records in arrival order: which is next, the list once it is taken, and
// the list with one more. `load` and `store` alone see the lent list; everything else takes and returns the sixteen by value.
#![tactic(auto)]

ghost use Rattle.std.specs.Prelude.{◌≡◌, min, ◌-◌, eqb, length};
ghost use Rattle.waiting_list.specs.Queue.{bus_of, under_bus, waiting_of, oldest_on, next_place, record_at, closed_up, with_one};

use frames::{CanFrame, TxClass};
use phones::ShortId;

// A frame as it was sent, with its class and, of a command, the id of its phone. The host may have altered any of it.
#[derive(Clone, Copy)]
pub struct Waiting {
    pub frame: CanFrame,
    pub class: TxClass,
    pub owner: ShortId,
}

// The sixteen records of a lent list.
pub fn load(list: &[Waiting]) -> [Waiting; 16]
    requires { length list.now ≡ 16 }
    ensures { result ≡ list.now }
{
    let mut all = [list[0]; 16];
    all.copy_from_slice(list);
    all
}

// Sixteen records laid down in a lent list.
pub fn store(list: &mut [Waiting], all: [Waiting; 16])
    requires { length list.old ≡ 16 }
    ensures { list.new ≡ all }
{
    list.copy_from_slice(&all);
}

// The record as every turn takes it: its frame's bus modulo 4.
pub fn under_bus(w: Waiting) -> Waiting
    ensures { result ≡ under_bus w }
{
    Waiting {
        frame: CanFrame {
            bus: w.frame.bus % 4,
            ..w.frame
        },
        ..w
    }
}

fn is_on(w: Waiting, bus: u8) -> bool
    ensures { result ≡ eqb (bus_of w) bus }
{
    w.frame.bus % 4 == bus
}

// How many of the sixteen wait.
fn clip(count: usize) -> usize
    ensures { result ≡ min count 16 }
{
    count.min(16)
}

// The place of the oldest frame on a bus; how many wait if none is on it.
pub fn first_on(all: [Waiting; 16], count: usize, bus: u8) -> usize
    ensures { result ≡ oldest_on bus (waiting_of all count) }
{
    all.iter()
        .take(count)
        .position(|w| is_on(*w, bus))
        .unwrap_or(clip(count))
}

// The place of the frame that the next turn takes, going round past the bus last served; 0 if none waits.
pub fn next_place(all: [Waiting; 16], count: usize, last: u8) -> usize
    ensures { result ≡ next_place last (waiting_of all count) }
{
    let n = clip(count);
    let l = last % 4;
    for step in 1..=3 {
        let place = first_on(all, count, (l + step) % 4);
        if place < n {
            return place;
        }
    }
    first_on(all, count, l)
}

// The record at a place; the last of the sixteen past them.
pub fn record_at(all: [Waiting; 16], place: usize) -> Waiting
    ensures { result ≡ record_at all (min place 15) }
{
    all[place.min(15)]
}

// The last place of those that wait, or 0.
fn last_of(count: usize) -> usize
    ensures { result ≡ min count 16 - 1 }
{
    count.min(16).saturating_sub(1)
}

// The list once the frame at a place is taken: the later frames that wait move one place forward.
pub fn closed_up(all: [Waiting; 16], at: usize, count: usize) -> [Waiting; 16]
    ensures { result ≡ closed_up all at count }
{
    let mut l = all;
    for i in at..last_of(count) {
        l[i] = l[i + 1];
    }
    l
}

// The list with one frame more, where a place is free.
pub fn put_record(all: [Waiting; 16], count: usize, w: Waiting) -> [Waiting; 16]
    ensures { result ≡ with_one all count w }
{
    let mut l = all;
    if count < 16 {
        l[count] = w;
    }
    l
}
