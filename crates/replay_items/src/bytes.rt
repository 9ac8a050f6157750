// Byte values, laid down one behind the other in lent memory.
ghost use Rattle.std.specs.Prelude.{◌≡◌, ◌+◌, ◌≤◌, length};
ghost use Rattle.replay_items.specs.Bytes.{bytes_at, lent_at, LaidAt, LaidAll};

use crate::{Ends, Has, LaidValue, LaidValues};
use replay_digits::Written;

// The bytes of lent memory from `a` to before `e`; none if it has no such part.
#[tactic(auto, unfolding(crate::specs::Bytes::lent_at))]
pub fn lent(room: &[u8], a: usize, e: usize) -> &[u8]
    ensures { result.now ≡ lent_at a e room.now }
{
    if room.len() < e || e < a {
        &room[..0]
    } else {
        &room[a..e]
    }
}

// Lays the bytes of the only item with this key down from `at` on, if they fit.
#[tactic(auto, unfolding(crate::specs::Bytes::bytes_at, crate::specs::Bytes::has_bytes))]
fn lay(line: &[u8], key: &[u8], form: Written, room: &mut [u8], at: usize) -> LaidValue
    ensures { at + length (bytes_at form key.now line.now) ≤ length room.old → LaidAt form key.now line.now room.old room.new at result }
{
    let laid = replay_values::bytes_of(line, key, form, room, at);
    LaidValue {
        ok: laid.is_some(),
        end: laid.unwrap_or(at),
    }
}

// All byte values of a line: together they are no longer than it, since each is a part of an item of its own.
pub fn lay_all(line: &[u8], room: &mut [u8]) -> LaidValues
    requires { length line.now ≤ length room.old }
    ensures { LaidAll line.now room.old room.new result }
{
    let a = lay(line, b"phone", Written::HexOrText, room, 0);
    let b = lay(line, b"method", Written::HexOrText, room, a.end);
    let c = lay(line, b"random", Written::Hex, room, b.end);
    let d = lay(line, b"code", Written::HexOrText, room, c.end);
    let e = lay(line, b"record", Written::Hex, room, d.end);
    let f = lay(line, b"fingerprint", Written::Hex, room, e.end);
    let g = lay(line, b"owner", Written::HexOrText, room, f.end);
    let h = lay(line, b"output", Written::Hex, room, g.end);
    let has = Has {
        phone: a.ok,
        method: b.ok,
        random: c.ok,
        code: d.ok,
        stored: e.ok,
        fingerprint: f.ok,
        owner: g.ok,
        output: h.ok,
    };
    let ends = Ends {
        phone: a.end,
        method: b.end,
        random: c.end,
        code: d.end,
        stored: e.end,
        fingerprint: f.end,
        owner: g.end,
        output: h.end,
    };
    LaidValues { has, ends }
}
