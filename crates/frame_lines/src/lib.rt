// A line of a log of frames: the entry that it says, and the line of an entry. It is `time= bus= kind= id= dlc= data=` with one
// space between them and byte 10 at its end. It is read in two steps: what may stand in it is taken as it comes, and the line
// of that is written and compared with it. So only what an entry's line looks like has to be known.
#![tactic(auto)]

ghost use Rattle.std.specs.Prelude.{◌≡◌, length, take, drop};
ghost use Rattle.arrays.specs.Arrays.{same_bytes};
ghost use Rattle.hexadecimal.specs.Hex.{hex_of};
ghost use Rattle.replay_page.specs.Page.{page, text};
ghost use Rattle.log_entries.specs.Entries.{entry};
ghost use Rattle.replay_values.specs.Values.{data_in};
ghost use Rattle.frame_lines.specs.Lines.{line_of, kind_of};
ghost use Rattle.frame_lines.specs.Guess.{empty_frame, behind, rest, values_in, entry_if, entry_from, read_line};
ghost use Rattle.frame_lines.specs.Walk.{Laid, lay, front, back};

use frames::{CanFrame, Id};

// What a line says.
#[derive(Clone, Copy, PartialEq, Eq)]
pub struct LineEntry {
    pub time: u64,
    pub frame: CanFrame,
}

// What stands behind the keys of a line, of its form or not.
#[derive(Clone, Copy)]
struct Values {
    time: Option<u64>,
    bus: Option<u64>,
    id: Option<Id>,
    dlc: Option<u64>,
    eight: Option<[u8; 8]>,
}

// A frame of zeros.
pub fn empty_frame() -> CanFrame
    ensures { result ≡ empty_frame }
{
    CanFrame {
        bus: 0,
        id: Id::Standard(0),
        data: [0; 8],
        dlc: 0,
    }
}

// What stands behind the first space.
fn rest(s: &[u8]) -> &[u8]
    ensures { result.now ≡ rest s.now }
{
    let end = replay_script::find(s, 0, b' ');
    if end < s.len() {
        &s[end + 1..]
    } else {
        &s[s.len()..]
    }
}

// The first word without its first `skip` bytes.
#[tactic(auto, using(word_table::proofs::Laws::before_le))]
fn behind(s: &[u8], skip: usize) -> &[u8]
    ensures { result.now ≡ behind skip s.now }
{
    let end = replay_script::find(s, 0, b' ');
    &s[skip.min(end)..end]
}

// The bytes behind `data=`.
fn data_at(s: &[u8]) -> Option<[u8; 8]>
    ensures { result ≡ data_in (take 16 (drop 5 s.now)) }
{
    replay_values::data_in(s.get(5..21)?)
}

// What stands behind the keys.
#[tactic(auto, unfolding(crate::specs::Guess::values_in))]
fn values_in(s: &[u8]) -> Values
    ensures { result ≡ values_in s.now }
{
    let bus = rest(s);
    let kind = rest(bus);
    let id = rest(kind);
    let dlc = rest(id);
    Values {
        time: replay_digits::number_in(behind(s, 5), 10, u64::MAX),
        bus: replay_digits::number_in(behind(bus, 4), 10, u64::MAX),
        id: replay_values::can_id_in(behind(kind, 5), behind(id, 3)),
        dlc: replay_digits::number_in(behind(dlc, 4), 10, u64::MAX),
        eight: data_at(rest(dlc)),
    }
}

// The entry of values that are in range.
fn entry_if(time: u64, bus: u64, id: Id, dlc: u64, data: [u8; 8]) -> Option<LineEntry>
    ensures { result ≡ entry_if time bus id dlc «data» }
{
    if bus > 3 || dlc > 8 || !frames::can_id_in_range(id) {
        return None;
    }
    let frame = CanFrame {
        bus: bus as u8,
        id,
        data,
        dlc: dlc as u8,
    };
    Some(LineEntry { time, frame })
}

// The entry of values that are all there and in range.
#[tactic(auto, unfolding(crate::specs::Guess::entry_from))]
fn entry_of(v: Values) -> Option<LineEntry>
    ensures { result ≡ entry_from v }
{
    entry_if(v.time?, v.bus?, v.id?, v.dlc?, v.eight?)
}

#[tactic(auto, unfolding(replay_page::specs::Page::text))]
fn put_kind(out: &mut [u8], at: usize, id: Id) -> usize
    ensures { page out.new result ≡ text (kind_of id) (page out.old at) }
{
    match id {
        Id::Standard(_) => replay_page::put_text(out, at, b"std"),
        Id::Extended(_) => replay_page::put_text(out, at, b"ext"),
    }
}

// The bytes of a frame. Its clause says of them what `put_back`'s proof needs: the text of their digits.
fn put_data(out: &mut [u8], at: usize, data: [u8; 8]) -> usize
    ensures { page out.new result ≡ text (hex_of «data») (page out.old at) }
{
    replay_page::put_bytes(out, at, &data)
}

// A line up to its id.
#[tactic(auto, unfolding(replay_page::specs::Page::item, crate::specs::Walk::lay))]
fn put_front(out: &mut [u8], e: LineEntry) -> usize
    ensures { page out.new result ≡ lay (front (entry e.time e.frame)) (page out.old 0) }
{
    let k = replay_page::put_item(out, 0, b"time=", e.time);
    let k = replay_page::put_item(out, k, b" bus=", u64::from(e.frame.bus));
    let k = replay_page::put_text(out, k, b" kind=");
    let k = put_kind(out, k, e.frame.id);
    replay_page::put_text(out, k, b" id=")
}

// A line behind its id.
#[tactic(auto, unfolding(replay_page::specs::Page::item, crate::specs::Walk::lay))]
fn put_back(out: &mut [u8], at: usize, f: CanFrame) -> usize
    ensures { page out.new result ≡ lay (back f) (page out.old at) }
{
    let k = replay_page::put_item(out, at, b" dlc=", u64::from(f.dlc));
    let k = replay_page::put_text(out, k, b" data=");
    let k = put_data(out, k, f.data);
    replay_page::put_text(out, k, b"\n")
}

// Writes the line of an entry over `out`, and answers its length. 85 bytes are room for any bus and dlc of a byte.
fn put_line(out: &mut [u8], e: LineEntry) -> usize
    requires { length out.old ≡ 85 }
    ensures { Laid 85 (page out.new result) (line_of (entry e.time e.frame)) }
{
    let k = put_front(out, e);
    let k = replay_page::put_hexadecimal(out, k, frames::id_raw(e.frame.id));
    put_back(out, k, e.frame)
}

// Whether these bytes are the line of an entry.
fn is_line(s: &[u8], e: LineEntry) -> bool
    ensures { result ≡ same_bytes (line_of (entry e.time e.frame)) s.now }
{
    let mut line = [0u8; 85];
    let n = put_line(&mut line, e);
    arrays::same_bytes(&line[..n], s)
}

// The entry whose line these bytes are.
#[tactic(auto, unfolding(crate::specs::Guess::read_line))]
pub fn read_line(s: &[u8]) -> Option<LineEntry>
    ensures { result ≡ read_line s.now }
{
    entry_of(values_in(s)).filter(|e| is_line(s, *e))
}
