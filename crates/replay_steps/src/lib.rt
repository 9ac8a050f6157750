// Makes the call that a line says on the host's gate, and lays down what it gives: `ran` of replay_given/specs/Turns.antt, which speaks of
// the calls by the gate's one definition, `step`.
#![tactic(auto)]

ghost use Rattle.std.specs.Prelude.{◌≡◌, ◌≤◌, length};
ghost use Rattle.definition.specs.Gate.{on_save, take_phone_validations_save};
ghost use Rattle.replay_items.specs.Bytes.{lent_bytes};
ghost use Rattle.replay_lines.specs.Lent.{most_lent};
ghost use Rattle.replay_page.specs.Page.{page};
ghost use Rattle.replay_calls.specs.Calls.{call, line_of, asking_line, rest_line};
ghost use Rattle.replay_given.specs.Turns.{ran, Lays};

use replay_given::Played;
use replay_host::Host;
use replay_items::{Ends, Items};

// Takes the next bytes of a save into a copy of the lent ones, and lays down what that gives. It raises nothing.
fn put_take(h: Host, lent: &[u8], out: &mut [u8], at: usize) -> Played
    requires { length lent.now ≤ most_lent }
    ensures { Lays (ran (call (on_save (take_phone_validations_save lent.now))) h) (page out.old at) result out.new }
{
    let n = lent.len();
    let mut copy = replay_lines::lent::copy_of(lent);
    let o = gate_phones::take_phone_validations_save(h.gate, &mut copy[..n]);
    let k = replay_lines::answer::put_answer(out, at, o.answer);
    let k = replay_lines::lent::put_output(out, k, &copy[..n]);
    let next = replay_host::with_gate(h, o.gate);
    replay_given::put_calm(next, out, k)
}

// How many rows each kind has: the calls of the phones and those of the bike, the queries with a plain answer and those with a
// longer one, and the lines that are not about the host's list. Each kind counts its own rows from 0.
const PHONE_CALLS: usize = 14;

const CAN_CALLS: usize = 18;

const PLAIN_QUERIES: usize = 17;

const LONG_QUERIES: usize = 14;

const OTHER_LINES: usize = 4;

// The lines behind the queries, by their place: those that are no calls, the call that is lent memory, and those of the host's list.
fn run_rest(
    h: Host,
    name: usize,
    i: Items,
    p: Ends,
    room: &[u8],
    out: &mut [u8],
    at: usize,
) -> Played
    requires { length (lent_bytes p room.now).output ≤ most_lent }
    ensures { Lays (ran (rest_line name i (lent_bytes p room.now)) h) (page out.old at) result out.new }
{
    let lent = replay_items::bytes::lent(room, p.owner, p.output);
    // An arm has a number, since a name is the number of its row in replay_names' table, and `other_lines` of
    // replay_calls/specs/Calls.antt counts in them.
    match name {
        0 => {
            let next = i.numbers.next.unwrap_or(0);
            let relocks = i.numbers.relocks.unwrap_or(0);
            let set = replay_host::with_counters(h, next, relocks);
            replay_given::put_done(set, out, at)
        }
        1 => {
            let k = replay_state::put_gate(out, at, h.gate);
            replay_given::not_called(h, k)
        }
        2 => {
            let saved = replay_items::bytes::lent(room, p.code, p.stored);
            let two = i.switches.target.unwrap_or(false);
            let k = replay_conversion::put_conversion(out, at, saved, two, lent);
            replay_given::put_calm(h, out, k)
        }
        3 => put_take(h, lent, out, at),
        _ => replay_given::run_host(h, name - OTHER_LINES, i, p, room, out, at),
    }
}

// The queries and the lines behind them, by their place.
fn run_asking(
    h: Host,
    name: usize,
    i: Items,
    p: Ends,
    room: &[u8],
    out: &mut [u8],
    at: usize,
) -> Played
    requires { length (lent_bytes p room.now).output ≤ most_lent }
    ensures { Lays (ran (asking_line name i (lent_bytes p room.now)) h) (page out.old at) result out.new }
{
    if name < PLAIN_QUERIES {
        let a = replay_queries::plain_query(h.gate, name, i, p, room);
        let k = replay_lines::answer::put_answer(out, at, a);
        return replay_given::put_calm(h, out, k);
    }
    let long = name - PLAIN_QUERIES;
    if long < LONG_QUERIES {
        let k = replay_queries::put_long(h.gate, long, i, p, room, out, at);
        return replay_given::put_calm(h, out, k);
    }
    run_rest(h, long - LONG_QUERIES, i, p, room, out, at)
}

// Runs a line whose items are right. `name` is the number of its row.
pub fn run(
    h: Host,
    name: usize,
    i: Items,
    p: Ends,
    room: &[u8],
    out: &mut [u8],
    at: usize,
) -> Played
    requires { length (lent_bytes p room.now).output ≤ most_lent }
    ensures { Lays (ran (line_of name i (lent_bytes p room.now)) h) (page out.old at) result out.new }
{
    if name < PHONE_CALLS {
        let o = replay_calls::phone_call(h.gate, name, i, p, room);
        return replay_given::put_outcome(h, o, out, at);
    }
    let can = name - PHONE_CALLS;
    if can < CAN_CALLS {
        let o = replay_calls::can_call(h.gate, can, i, p, room);
        return replay_given::put_outcome(h, o, out, at);
    }
    run_asking(h, can - CAN_CALLS, i, p, room, out, at)
}
