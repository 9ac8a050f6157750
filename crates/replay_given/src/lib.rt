// What a line gives: what the host holds afterwards, and the text, as specs/Turns.antt has them by the gate's one definition, `step`. The
// calls on waiting frames are made here, and the lines about the host's list (02, W-204).
#![tactic(auto)]

ghost use Rattle.std.specs.Prelude.{◌≡◌, List};
ghost use Rattle.definition.specs.Gate.{given, send_can_frame, serve_can_frames};
ghost use Rattle.waiting_list.specs.declared.Waiting.{Waiting};
ghost use Rattle.replay_items.specs.Bytes.{lent_bytes};
ghost use Rattle.replay_page.specs.Page.{page};
ghost use Rattle.replay_page.specs.Room.{Within};
ghost use Rattle.replay_signals.specs.Signals.{signals};
ghost use Rattle.state.specs.Replies.{no_signals};
ghost use Rattle.replay_calls.specs.Calls.{lending, lent_list, host_line};
ghost use Rattle.replay_given.specs.Turns.{turn_of, laid, calm, done, ran, passed, calm_room, Lays};

use frames::{CanFrame, TxClass};
use replay_host::Host;
use replay_items::{Ends, Items, NO_FRAME};
use state::{Answer, Outcome};

// The host after a line, the place after what was laid down, and whether the line was a call.
#[derive(Clone, Copy)]
pub struct Played {
    pub host: Host,
    pub at: usize,
    pub called: bool,
}

pub fn put_outcome(h: Host, o: Outcome, out: &mut [u8], at: usize) -> Played
    ensures { Lays (laid h (given o)) (page out.old at) result out.new }
{
    let k = replay_lines::answer::put_answer(out, at, o.answer);
    let k = replay_signals::put_signals(out, k, o.signals);
    let host = replay_host::with_gate(h, o.gate);
    Played {
        host,
        at: k,
        called: true,
    }
}

// What stands behind the answer of a query, and of any line that leaves the host as it is.
pub fn put_calm(h: Host, out: &mut [u8], at: usize) -> Played
    ensures { (turn_of result out.new ≡ calm h (page out.old at)) × Within calm_room (signals no_signals) }
{
    let k = replay_signals::put_signals(out, at, state::replies::no_signals());
    Played {
        host: h,
        at: k,
        called: true,
    }
}

// No call was made.
pub fn not_called(h: Host, at: usize) -> Played
    ensures { result ≡ passed h at }
{
    Played {
        host: h,
        at,
        called: false,
    }
}

// A line about what the host holds that was done. It raises nothing.
pub fn put_done(h: Host, out: &mut [u8], at: usize) -> Played
    ensures { Lays (done h) (page out.old at) result out.new }
{
    let k = replay_lines::answer::put_answer(out, at, Answer::Done);
    put_calm(h, out, k)
}

// What the host lends of its list.
fn put_list(h: Host, out: &mut [u8], at: usize) -> Played
    ensures { Lays (ran lent_list h) (page out.old at) result out.new }
{
    let k = replay_frames::put_lent_list(out, at, h.list, h.lent);
    put_calm(h, out, k)
}

// Sends a frame, with the host's list lent, and lays down what that gives.
fn put_sent(
    h: Host,
    frame: CanFrame,
    class: TxClass,
    owner: &[u8],
    out: &mut [u8],
    at: usize,
) -> Played
    ensures { Lays (ran (lending (λ (list : List Waiting). send_can_frame list frame class owner.now)) h) (page out.old at) result out.new }
{
    let s = replay_host::send_can_frame(h, frame, class, owner);
    let next = replay_host::with_list(h, s.list);
    put_outcome(next, s.outcome, out, at)
}

// Takes turns, with the host's list lent, and lays down what that gives.
fn put_served(h: Host, turns: u32, clock: u64, out: &mut [u8], at: usize) -> Played
    ensures { Lays (ran (lending (λ (list : List Waiting). serve_can_frames list turns clock)) h) (page out.old at) result out.new }
{
    let s = replay_host::serve_can_frames(h, turns, clock);
    let next = replay_host::with_list(h, s.list);
    let o = s.ran.outcome;
    let k = replay_frames::put_report(out, at, o.answer, s.ran.report);
    let k = replay_signals::put_signals(out, k, o.signals);
    let host = replay_host::with_gate(next, o.gate);
    Played {
        host,
        at: k,
        called: true,
    }
}

// The calls on waiting frames and the lines about the host's list, by their place.
pub fn run_host(
    h: Host,
    name: usize,
    i: Items,
    p: Ends,
    room: &[u8],
    out: &mut [u8],
    at: usize,
) -> Played
    ensures { Lays (ran (host_line name i (lent_bytes p room.now)) h) (page out.old at) result out.new }
{
    let frame = i.frame.unwrap_or(NO_FRAME);
    let class = i.class.unwrap_or(TxClass::Platform);
    let owner = replay_items::bytes::lent(room, p.fingerprint, p.owner);
    // An arm has a number, since a name is the number of its row in replay_names' table, and `host_lines` of
    // replay_calls/specs/Calls.antt counts in them.
    match name {
        0 => put_sent(h, frame, class, owner, out, at),
        1 => {
            let turns = i.numbers.turns.unwrap_or(0);
            let clock = i.numbers.clock.unwrap_or(0);
            put_served(h, turns, clock, out, at)
        }
        2 => {
            let length = i.numbers.length.unwrap_or(0);
            put_done(replay_host::with_lent(h, length), out, at)
        }
        3 => {
            let slot = i.numbers.slot.unwrap_or(0);
            let w = replay_host::record_of(frame, class, owner);
            put_done(replay_host::with_record(h, slot, w), out, at)
        }
        4 => put_list(h, out, at),
        _ => not_called(h, at),
    }
}
