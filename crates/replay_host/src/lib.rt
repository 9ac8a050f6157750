// What the host of a script holds from line to line: its gate, and the list that it lends to the calls on waiting frames (02, W-204).
// The two calls are made here on what is lent of that list, by value.
#![tactic(auto, unfolding(crate::specs::Host::never_set, crate::specs::Host::first_host, crate::specs::Host::record_of, crate::specs::Host::with_record, phones::specs::Phones::id_of, arrays::specs::Arrays::padded))]

ghost use Rattle.std.specs.Prelude.{◌≡◌, ◌++◌, take, drop};
ghost use Rattle.replay_host.specs.Host.{never_set, first_host, with_gate, with_counters, with_list, with_lent, owner_of, record_of, with_record, Sends, Serves};

use frames::{CanFrame, Id, TxClass};
use phones::ShortId;
use state::{Gate, Outcome, Ran};
use waiting_list::Waiting;

// Of the seventeen records the first `lent` are lent.
#[derive(Clone, Copy)]
pub struct Host {
    pub gate: Gate,
    pub list: [Waiting; 17],
    pub lent: usize,
}

// What a call on waiting frames gives, and the host's list as it is left.
#[derive(Clone, Copy)]
pub struct Sent {
    pub outcome: Outcome,
    pub list: [Waiting; 17],
}

#[derive(Clone, Copy)]
pub struct Served {
    pub ran: Ran,
    pub list: [Waiting; 17],
}

// ---- the list

fn never_set() -> Waiting
    ensures { result ≡ never_set }
{
    Waiting {
        frame: CanFrame {
            bus: 0,
            id: Id::Standard(0),
            data: [0; 8],
            dlc: 0,
        },
        class: TxClass::Platform,
        owner: ShortId {
            bytes: [0; 32],
            len: 0,
        },
    }
}

pub fn first_host(g: Gate) -> Host
    ensures { result ≡ first_host g }
{
    Host {
        gate: g,
        list: [never_set(); 17],
        lent: 16,
    }
}

pub fn with_gate(h: Host, gate: Gate) -> Host
    ensures { result ≡ with_gate h gate }
{
    Host { gate, ..h }
}

pub fn with_list(h: Host, list: [Waiting; 17]) -> Host
    ensures { result ≡ with_list h list }
{
    Host { list, ..h }
}

pub fn with_lent(h: Host, n: usize) -> Host
    ensures { result ≡ with_lent h n }
{
    Host { lent: n, ..h }
}

// Sets the number of the next session and the relock count.
pub fn with_counters(h: Host, next: u32, relocks: u32) -> Host
    ensures { result ≡ with_gate h (with_counters h.gate next relocks) }
{
    let mut set = h;
    set.gate.core.validation.next = next;
    set.gate.core.probe.relocks = relocks;
    set
}

fn owner_of(s: &[u8]) -> ShortId
    ensures { result ≡ owner_of s.now }
{
    let kept = s.len().min(32);
    let mut bytes = [0; 32];
    bytes[..kept].copy_from_slice(&s[..kept]);
    ShortId {
        bytes,
        len: s.len(),
    }
}

pub fn record_of(frame: CanFrame, class: TxClass, owner: &[u8]) -> Waiting
    ensures { result ≡ record_of frame class owner.now }
{
    Waiting {
        frame,
        class,
        owner: owner_of(owner),
    }
}

pub fn with_record(h: Host, place: usize, w: Waiting) -> Host
    ensures { result ≡ with_record h place w }
{
    let mut next = h;
    if place < 17 {
        next.list[place] = w;
    }
    next
}

// ---- the calls

// The first sixteen records.
fn sixteen(list: [Waiting; 17]) -> [Waiting; 16]
    ensures { result ≡ take 16 list }
{
    let mut all = [list[0]; 16];
    all.copy_from_slice(&list[..16]);
    all
}

// The list with other records at its first sixteen places.
fn with_sixteen(list: [Waiting; 17], all: [Waiting; 16]) -> [Waiting; 17]
    ensures { result ≡ all ++ drop 16 list }
{
    let mut next = list;
    next[..16].copy_from_slice(&all);
    next
}

pub fn send_can_frame(h: Host, frame: CanFrame, class: TxClass, owner: &[u8]) -> Sent
    ensures { Sends h frame class owner.now result }
{
    // `list` stays a local: the prover does not cover an array that goes straight from a field or a call into a struct literal.
    let list = h.list;
    if h.lent == 16 {
        let s = gate_queue::send_sixteen(h.gate, sixteen(list), frame, class, owner);
        let list = with_sixteen(list, s.all);
        Sent {
            outcome: s.outcome,
            list,
        }
    } else {
        let outcome = gate_queue::send_none(h.gate, frame, class, owner);
        Sent { outcome, list }
    }
}

pub fn serve_can_frames(h: Host, turns: u32, clock: u64) -> Served
    ensures { Serves h turns clock result }
{
    // `list` stays a local: the prover does not cover an array that goes straight from a field or a call into a struct literal.
    let list = h.list;
    if h.lent == 16 {
        let s = gate_queue::serve_sixteen(h.gate, sixteen(list), turns, clock);
        let list = with_sixteen(list, s.all);
        Served { ran: s.ran, list }
    } else {
        let ran = gate_queue::serve_none(h.gate);
        Served { ran, list }
    }
}
