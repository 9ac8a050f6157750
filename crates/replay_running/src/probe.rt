// The probe of a gate.
ghost use Rattle.std.specs.Prelude.{◌≡◌, ◌<◌};
ghost use Rattle.replay_page.specs.Page.{page};
ghost use Rattle.replay_lines.specs.Table.{key_text};
ghost use Rattle.replay_running.specs.Probe.{id_text, frame, frame_at, frames_to, sent_at, sent_to, window, mark, marks, probe};

use frames::{Id, ProbeFrame};
use replay_lines::fields::{Field, put_field, put_fields};
use replay_lines::key::Key;
use replay_lines::word::Word;
use state::{Probe, Window};

// KIND/ID
pub fn put_id(out: &mut [u8], at: usize, id: Id) -> usize
    ensures { page out.new result ≡ id_text id (page out.old at) }
{
    match id {
        Id::Standard(n) => {
            let k = replay_page::put_text(out, at, b"std/");
            replay_page::put_hexadecimal(out, k, n)
        }
        Id::Extended(n) => {
            let k = replay_page::put_text(out, at, b"ext/");
            replay_page::put_hexadecimal(out, k, n)
        }
    }
}

// KIND/ID/DATA
fn put_frame(out: &mut [u8], at: usize, f: ProbeFrame) -> usize
    ensures { page out.new result ≡ frame f (page out.old at) }
{
    let k = put_id(out, at, f.id);
    let k = replay_page::put_text(out, k, b"/");
    replay_page::put_bytes(out, k, &f.data)
}

// The frame at a place, if there is one.
fn put_frame_at(out: &mut [u8], at: usize, w: Window, i: usize) -> usize
    requires { i < 4 }
    ensures { page out.new result ≡ frame_at w i (page out.old at) }
{
    if i < w.count {
        let k = replay_page::put_comma(out, at, i);
        put_frame(out, k, w.frames[i])
    } else {
        at
    }
}

fn put_frame_list(out: &mut [u8], at: usize, w: Window) -> usize
    ensures { page out.new result ≡ frames_to w 4 (page out.old at) }
{
    let mut k = at;
    for i in 0..4 {
        k = put_frame_at(out, k, w, i);
    }
    k
}

// Whether the frame at a place was sent, if there is one.
fn put_sent_at(out: &mut [u8], at: usize, w: Window, i: usize) -> usize
    requires { i < 4 }
    ensures { page out.new result ≡ sent_at w i (page out.old at) }
{
    if i < w.count {
        replay_page::put_text(out, at, if w.sent[i] { b"1" } else { b"0" })
    } else {
        at
    }
}

fn put_sent_list(out: &mut [u8], at: usize, w: Window) -> usize
    ensures { page out.new result ≡ sent_to w 4 (page out.old at) }
{
    let mut k = at;
    for i in 0..4 {
        k = put_sent_at(out, k, w, i);
    }
    k
}

fn put_window(out: &mut [u8], at: usize, w: Window) -> usize
    ensures { page out.new result ≡ window w (page out.old at) }
{
    if !w.present {
        return put_field(out, at, b"", Field::Word(Key::Window, Word::None));
    }
    let fields = [
        Field::Number(Key::Window, w.bus as u64),
        Field::Key(Key::Frames),
    ];
    let k = put_fields(out, at, b"", &fields);
    let k = put_frame_list(out, k, w);
    let fields = [
        Field::Number(Key::OpenedAt, w.opened),
        Field::Number(Key::RelocksThen, w.relocks as u64),
        Field::Key(Key::Sent),
    ];
    let k = put_fields(out, k, b"", &fields);
    put_sent_list(out, k, w)
}

// When a frame was last heard on a bus.
fn put_mark(out: &mut [u8], at: usize, key: Key, heard: bool, ms: u64) -> usize
    ensures { page out.new result ≡ mark (key_text key) heard ms (page out.old at) }
{
    let field = if heard {
        Field::Number(key, ms)
    } else {
        Field::Word(key, Word::Never)
    };
    put_field(out, at, b"", field)
}

fn put_marks(out: &mut [u8], at: usize, heard: [bool; 4], ms: [u64; 4]) -> usize
    ensures { page out.new result ≡ marks heard ms (page out.old at) }
{
    let k = put_mark(out, at, Key::Marks, heard[0], ms[0]);
    let k = put_mark(out, k, Key::Comma, heard[1], ms[1]);
    let k = put_mark(out, k, Key::Comma, heard[2], ms[2]);
    put_mark(out, k, Key::Comma, heard[3], ms[3])
}

pub fn put_probe(out: &mut [u8], at: usize, p: Probe) -> usize
    ensures { page out.new result ≡ probe p (page out.old at) }
{
    let k = put_window(out, at, p.window);
    let fields = [
        Field::Number(Key::Attempts, p.attempts as u64),
        Field::Number(Key::Relocks, p.relocks as u64),
    ];
    let k = put_fields(out, k, b"", &fields);
    put_marks(out, k, p.heard, p.marks)
}
