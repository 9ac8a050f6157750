// Items that may stand several times: the methods of a new gate, the frames of a probe. Each value has three parts with
// slashes between them.
#![tactic(auto)]

ghost use Rattle.std.specs.Prelude.{◌≡◌, MatchOption};
ghost use Rattle.ascii.specs.Ascii.{ascii};
ghost use Rattle.replay_script.specs.Places.{values_of};
ghost use Rattle.replay_script.specs.Words.{items_of, split};
ghost use Rattle.replay_lists.specs.Lists.{not_three, three, three_of, method_id, kind_in, method_in, with_next, no_methods, add_methods, frame_in, no_frames, add_frames};

use frames::{Id, ProbeFrame};
use phones::ShortId;
use replay_digits::Written;
use state::{Kind, Method};

// The methods of a new gate: the first eight, none if one is not of its form; and how many there are.
#[derive(Clone, Copy)]
pub struct Methods {
    pub list: Option<[Method; 8]>,
    pub count: usize,
}

// The frames of a probe: the first four, none if one is not of its form; and how many there are.
#[derive(Clone, Copy)]
pub struct ProbeFrames {
    pub list: Option<[ProbeFrame; 4]>,
    pub count: usize,
}

// What stands in a place of a list that no item takes.
pub const NO_METHOD: Method = Method {
    id: ShortId {
        bytes: [0; 32],
        len: 0,
    },
    kind: Kind::InCarAction,
    needs_approval: false,
};

pub const NO_FRAME: ProbeFrame = ProbeFrame {
    id: Id::Standard(0),
    data: [0; 8],
};

// The three parts of a value; none if it has not two slashes.
fn parts_of(v: &[u8]) -> Option<(&[u8], &[u8], &[u8])>
    ensures { MatchOption result (three_of (split 47 v.now) ≡ not_three) (λ p. three_of (split 47 v.now) ≡ three p.0.now p.1.now p.2.now) }
{
    let one = replay_script::find(v, 0, b'/');
    if v.len() <= one {
        return None;
    }
    let two = replay_script::find(v, one + 1, b'/');
    if v.len() <= two {
        return None;
    }
    let three = replay_script::find(v, two + 1, b'/');
    if three < v.len() {
        return None;
    }
    Some((&v[..one], &v[one + 1..two], &v[two + 1..]))
}

// An id; of one above 32 bytes the length is kept, so that it is out of range.
#[tactic(auto, using(crate::proofs::Laws::id_made), unfolding(crate::specs::Lists::method_id))]
fn method_id(s: &[u8]) -> Option<ShortId>
    ensures { result ≡ method_id s.now }
{
    if !replay_digits::is_bytes(s, Written::HexOrText) {
        return None;
    }
    let len = replay_digits::byte_count(s, Written::HexOrText);
    let mut bytes = [0u8; 32];
    if 32 < len {
        return Some(ShortId { bytes, len });
    }
    replay_digits::put_bytes(s, Written::HexOrText, &mut bytes, 0);
    Some(ShortId { bytes, len })
}

#[tactic(auto, using(arrays::proofs::Laws::same_is_pointwise), unfolding(crate::specs::Lists::kind_in))]
fn kind_in(s: &[u8]) -> Option<Kind>
    ensures { result ≡ kind_in s.now }
{
    if s == b"code".as_slice() {
        Some(Kind::CodeEntry)
    } else if s == b"action".as_slice() {
        Some(Kind::InCarAction)
    } else {
        None
    }
}

// ID/KIND/APPROVAL
#[tactic(auto, unfolding(crate::specs::Lists::method_in))]
fn method_in(v: &[u8]) -> Option<Method>
    ensures { result ≡ method_in v.now }
{
    let (id, kind, approval) = parts_of(v)?;
    let id = method_id(id)?;
    let kind = kind_in(kind)?;
    let needs_approval = replay_values::flag_in(approval)?;
    Some(Method {
        id,
        kind,
        needs_approval,
    })
}

// KIND/ID/DATA
#[tactic(auto, unfolding(crate::specs::Lists::frame_in))]
fn frame_in(v: &[u8]) -> Option<ProbeFrame>
    ensures { result ≡ frame_in v.now }
{
    let (kind, id, eight) = parts_of(v)?;
    let id = replay_values::can_id_in(kind, id)?;
    let data = replay_values::data_in(eight)?;
    Some(ProbeFrame { id, data })
}

// A list with one item more at `n`, or the same past its last place; none if one is not of its form.
fn with_next<T: Copy, const N: usize>(
    list: Option<[T; N]>,
    n: usize,
    one: Option<T>,
) -> Option<[T; N]>
    ensures { result ≡ with_next N list n one }
{
    let mut list = list?;
    let one = one?;
    if n < N {
        list[n] = one;
    }
    Some(list)
}

#[tactic(auto, unfolding(crate::specs::Lists::add_methods))]
pub fn methods_of(line: &[u8]) -> Methods
    ensures { result ≡ add_methods no_methods (values_of (ascii "method") (items_of line.now)) }
{
    let mut all = Methods {
        list: Some([NO_METHOD; 8]),
        count: 0,
    };
    let mut at = 0;
    while let Some(v) = replay_script::next(line, at, b"method") {
        let one = method_in(&line[v.start..v.end]);
        all = Methods {
            list: with_next(all.list, all.count, one),
            count: all.count + 1,
        };
        at = v.end;
    }
    all
}

#[tactic(auto, unfolding(crate::specs::Lists::add_frames))]
pub fn frames_of(line: &[u8]) -> ProbeFrames
    ensures { result ≡ add_frames no_frames (values_of (ascii "frame") (items_of line.now)) }
{
    let mut all = ProbeFrames {
        list: Some([NO_FRAME; 4]),
        count: 0,
    };
    let mut at = 0;
    while let Some(v) = replay_script::next(line, at, b"frame") {
        let one = frame_in(&line[v.start..v.end]);
        all = ProbeFrames {
            list: with_next(all.list, all.count, one),
            count: all.count + 1,
        };
        at = v.end;
    }
    all
}
