// Plays one line of a script on the host's gate: reads it, makes its call and lays down what it gives. That is `played` of
// replay_played/specs/Played.antt, which speaks of the calls by the gate's one definition, `step`.
#![tactic(auto)]

ghost use Rattle.std.specs.Prelude.{◌≡◌, ◌≤◌, length};
ghost use Rattle.arrays.specs.Arrays.{put};
ghost use Rattle.replay_items.specs.Bytes.{lent_bytes, bytes_of, joined};
ghost use Rattle.replay_lines.specs.Lent.{most_lent};
ghost use Rattle.replay_page.specs.Page.{page};
ghost use Rattle.replay_calls.specs.Calls.{line_of};
ghost use Rattle.replay_given.specs.Turns.{turn_of, ran, TurnFits};
ghost use Rattle.replay_played.specs.Played.{begun, failed, ended, played, state_line, with_state, PlayedFits, most_read, EveryLineFits, FromBadNew};

use replay_given::Played;
use replay_host::Host;
use replay_items::{Ends, Items};
use state::{Gate, Settings};

// A line whose items are right.
fn play_call(
    h: Host,
    number: u64,
    word: &[u8],
    name: usize,
    i: Items,
    p: Ends,
    room: &[u8],
    out: &mut [u8],
) -> Played
    requires { length (lent_bytes p room.now).output ≤ most_lent }
    ensures { (turn_of result out.new ≡ ended (ran (line_of name i (lent_bytes p room.now)) h (begun number word.now (page out.old 0)))) × TurnFits (ran (line_of name i (lent_bytes p room.now)) h) }
{
    let k = replay_played::put_begin(out, 0, number, word);
    let mut r = replay_steps::run(h, name, i, p, room, out, k);
    r.at = replay_page::put_text(out, r.at, b"\n");
    r
}

// A line that is no call.
fn play_error(h: Host, number: u64, name: usize, out: &mut [u8]) -> Played
    ensures { turn_of result out.new ≡ ended (failed name h number (page out.old 0)) }
{
    let k = replay_page::put_item(out, 0, b"line=", number);
    let k = replay_played::put_error(out, k, name);
    let k = replay_page::put_text(out, k, b"\n");
    replay_given::not_called(h, k)
}

fn play_line(h: Host, number: u64, line: &[u8], room: &mut [u8], out: &mut [u8]) -> Played
    requires { (length line.now ≤ length room.old) × (length line.now ≤ most_read) }
    ensures { (turn_of result out.new ≡ played h number line.now (page out.old 0)) × (room.new ≡ put room.old 0 (joined (bytes_of line.now))) × PlayedFits h number line.now }
{
    let e = replay_script::name_end(line);
    let name = replay_names::name_of(&line[..e]);
    let read = replay_items::read(line, room);
    if replay_items::takes::takes(name, read.items) {
        play_call(
            h,
            number,
            &line[..e],
            name,
            read.items,
            read.ends,
            room,
            out,
        )
    } else {
        play_error(h, number, name, out)
    }
}

// A line with the state of a gate.
fn put_state(out: &mut [u8], at: usize, number: u64, g: Gate) -> usize
    ensures { page out.new result ≡ state_line number g (page out.old at) }
{
    let k = replay_played::put_begin(out, at, number, b"state");
    let k = replay_state::put_gate(out, k, g);
    replay_page::put_text(out, k, b"\n")
}

// The line, and the state behind every call if that is asked for.
pub fn play(
    h: Host,
    number: u64,
    line: &[u8],
    states: bool,
    room: &mut [u8],
    out: &mut [u8],
) -> Played
    requires { (length line.now ≤ length room.old) × (length line.now ≤ most_read) }
    ensures { (turn_of result out.new ≡ with_state states number (played h number line.now (page out.old 0))) × (room.new ≡ put room.old 0 (joined (bytes_of line.now))) × EveryLineFits states h number line.now }
{
    let mut r = play_line(h, number, line, room, out);
    if states && r.called {
        r.at = put_state(out, r.at, number, r.host.gate);
    }
    r
}

// What the host holds before the first `new`: the gate that 25 hands back, and a list of records that were never set.
pub fn first_host() -> Host
    ensures { FromBadNew result }
{
    let settings = Settings {
        digits: 0,
        tries: 0,
        session: 0,
        cooldown: 0,
        keep: 0,
        bonded: 0,
    };
    let made = gate_sessions::new_gate(settings, [state::running::no_method(); 8], 0);
    replay_host::first_host(made.gate)
}
