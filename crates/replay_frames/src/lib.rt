// Frames that were decided, and the records of the host's list (02, W-204).
#![tactic(auto, unfolding(replay_lines::specs::Fields::put_fields, replay_page::specs::Page::item, replay_page::specs::Page::flag, replay_page::specs::Page::word, replay_page::specs::Page::known, replay_answers::specs::Query::told, crate::specs::Frames::bus_id, crate::specs::Frames::frame, crate::specs::Frames::decided, crate::specs::Frames::decided_at, crate::specs::Frames::waiting, crate::specs::Frames::waiting_at, crate::specs::Frames::lent_list))]

ghost use Rattle.std.specs.Prelude.{◌≡◌, ◌<◌};
ghost use Rattle.replay_page.specs.Page.{page, text};
ghost use Rattle.replay_frames.specs.Frames.{class_part, bus_id, frame, decided, decided_at, decided_to, report, waiting, waiting_at, waiting_to, lent_list};

use frames::{CanFrame, Id, TxClass};
use replay_lines::fields::{Field, put_fields};
use replay_lines::key::Key;
use state::{Answer, Decided, Report};
use waiting_list::Waiting;

// BUS/KIND/ID
fn put_bus_id(out: &mut [u8], at: usize, bus: u8, id: Id) -> usize
    ensures { page out.new result ≡ bus_id bus id (page out.old at) }
{
    let k = replay_page::put_number(out, at, bus as u64);
    let k = replay_page::put_text(out, k, b"/");
    replay_running::probe::put_id(out, k, id)
}

// BUS/KIND/ID/DLC/DATA
fn put_frame(out: &mut [u8], at: usize, f: CanFrame) -> usize
    ensures { page out.new result ≡ frame f (page out.old at) }
{
    let k = put_bus_id(out, at, f.bus, f.id);
    let k = replay_page::put_item(out, k, b"/", f.dlc as u64);
    let k = replay_page::put_text(out, k, b"/");
    replay_page::put_bytes(out, k, &f.data)
}

// ---- the report of a run

// The frame with its yes or no.
fn put_decided(out: &mut [u8], at: usize, d: Decided) -> usize
    ensures { page out.new result ≡ decided d (page out.old at) }
{
    let k = put_frame(out, at, d.frame);
    replay_page::put_flag(out, k, b"/", d.allowed)
}

// That of the turn at a place, if it was taken.
fn put_decided_at(out: &mut [u8], at: usize, r: Report, i: usize) -> usize
    requires { i < 16 }
    ensures { page out.new result ≡ decided_at r i (page out.old at) }
{
    if i < r.turns {
        let k = replay_page::put_comma(out, at, i);
        put_decided(out, k, r.frames[i])
    } else {
        at
    }
}

fn put_decided_list(out: &mut [u8], at: usize, r: Report) -> usize
    ensures { page out.new result ≡ decided_to r 16 (page out.old at) }
{
    let mut k = at;
    for i in 0..16 {
        k = put_decided_at(out, k, r, i);
    }
    k
}

pub fn put_report(out: &mut [u8], at: usize, a: Answer, r: Report) -> usize
    ensures { page out.new result ≡ report a r (page out.old at) }
{
    let fields = [
        Field::Number(Key::Turns, r.turns as u64),
        Field::Key(Key::Frames),
    ];
    let k = replay_answers::put_told(out, at, a, b"", &fields);
    if replay_answers::is_done(a) {
        put_decided_list(out, k, r)
    } else {
        k
    }
}

// ---- the host's list

// /CLASS/
fn put_class(out: &mut [u8], at: usize, c: TxClass) -> usize
    ensures { page out.new result ≡ text (class_part c) (page out.old at) }
{
    match c {
        TxClass::Platform => replay_page::put_text(out, at, b"/platform/"),
        TxClass::Command => replay_page::put_text(out, at, b"/command/"),
    }
}

// The frame with its class and its owner.
fn put_waiting(out: &mut [u8], at: usize, w: Waiting) -> usize
    ensures { page out.new result ≡ waiting w (page out.old at) }
{
    let k = put_frame(out, at, w.frame);
    let k = put_class(out, k, w.class);
    replay_lines::parts::put_phone(out, k, w.owner)
}

// The record at a place, if it is lent.
fn put_waiting_at(out: &mut [u8], at: usize, list: [Waiting; 17], lent: usize, i: usize) -> usize
    requires { i < 17 }
    ensures { page out.new result ≡ waiting_at list lent i (page out.old at) }
{
    if i < lent {
        let k = replay_page::put_comma(out, at, i);
        put_waiting(out, k, list[i])
    } else {
        at
    }
}

fn put_waiting_list(out: &mut [u8], at: usize, list: [Waiting; 17], lent: usize) -> usize
    ensures { page out.new result ≡ waiting_to list lent 17 (page out.old at) }
{
    let mut k = at;
    for i in 0..17 {
        k = put_waiting_at(out, k, list, lent, i);
    }
    k
}

pub fn put_lent_list(out: &mut [u8], at: usize, list: [Waiting; 17], lent: usize) -> usize
    ensures { page out.new result ≡ lent_list list lent (page out.old at) }
{
    let k = replay_lines::answer::put_answer(out, at, Answer::Done);
    let fields = [
        Field::Number(Key::Length, lent as u64),
        Field::Key(Key::Records),
    ];
    let k = put_fields(out, k, b"", &fields);
    put_waiting_list(out, k, list, lent)
}
