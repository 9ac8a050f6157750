// Reads a script on standard input, plays it on the host's gate and prints what each line gives; with the argument `--state` also
// the gate's state after each call. What is printed of a line is `replay_player::play` of it. What a program reads and writes is open
// to a contract; `run` and `main` give nothing back.
#![tactic(auto)]

ghost use Rattle.std.specs.Prelude.{◌≡◌, ◌≤◌, true, length};
ghost use Rattle.replay_page.specs.Page.{page};
ghost use Rattle.replay_played.specs.Played.{most_read, line_room};
ghost use Rattle.replay_given.specs.Turns.{turn_of};
ghost use Rattle.replay.specs.Script.{kept_len, kept_in, line_in, line_gives, host_after, read, ReadOn, reading_of, next_line};

use replay_arguments::{Asked, UnknownArgument};
use replay_given::Played;
use replay_host::Host;
use std::env::{Env, FillError};
use std::io::{Error, Read};

// The host, the number of the line that is being read, and how much of it is there; above the room for a line: it is too
// long. Not `going`: the script has ended, or reading or writing failed.
// `going` is a flag: `finish_line` says the next state whether it goes on or not.
#[derive(Clone, Copy)]
struct Replay {
    host: Host,
    number: u64,
    len: usize,
    going: bool,
}

// Says that an argument is not known; of a long one the first 256 bytes.
fn refuse(rt: &impl Env, err: &impl Print, place: usize) {
    let mut word = [0u8; 256];
    let said = rt.arg(place, &mut word);
    let _ = err.print("replay: unknown argument '");
    let _ = match said {
        Ok(n) => err.write_all(&word[..n]),
        Err(FillError::TooLong) => err.write_all(&word),
        Err(FillError::NotPresent) => Ok(()),
    };
    let _ = err.println("'; it takes --state or none");
}

// Says what failed, and why.
fn fail(rt: &impl Eprint, stream: &str, error: Error) {
    let _ = eprintln!(rt; "replay: {stream}: {error}");
}

// Puts more of a line behind what is there.
fn keep(line: &mut [u8], len: usize, more: &[u8]) -> usize
    ensures { (result ≡ kept_len line.old len more.now) × (line.new ≡ kept_in line.old len more.now) }
{
    if line.len() < len {
        len
    } else if line.len() - len < more.len() {
        line.len() + 1
    } else {
        arrays::put(line, len, more);
        len + more.len()
    }
}

// Prints the first `at` bytes that were laid down. Whether that goes well is open.
fn print(rt: &(impl Print + Eprint), out: &[u8], at: usize) -> bool
    requires { at ≤ length out.now }
{
    if let Err(e) = rt.write_all(&out[..at]) {
        fail(rt, "standard output", e);
        return false;
    }
    true
}

// Lays down what a line gives, which fits; one that is passed over gives nothing. What is left in `room` is open: nothing reads it
// again.
fn give_line(p: Replay, line: &[u8], states: bool, room: &mut [u8], out: &mut [u8]) -> Played
    requires { (length line.now ≤ length room.old) × (line_room ≤ length out.old) × (length line.now ≤ most_read) }
    ensures { (turn_of result out.new ≡ line_gives states p.host p.number (line_in line.now p.len) (page out.old 0)) × (result.at ≤ length out.new) }
{
    if line.len() < p.len {
        let k = replay_played::put_too_long(p.number, out);
        return replay_given::not_called(p.host, k);
    }
    let line = &line[..p.len];
    if replay_played::is_passed_over(line) {
        replay_given::not_called(p.host, 0)
    } else {
        replay_player::play(p.host, p.number, line, states, room, out)
    }
}

// Plays the line that has ended; the next one has no byte yet. Open is whether it goes on, and what is left in `room` and `out`,
// which nothing reads again.
fn finish_line(
    rt: &(impl Print + Eprint),
    p: Replay,
    line: &[u8],
    states: bool,
    room: &mut [u8],
    out: &mut [u8],
) -> Replay
    requires { (length line.now ≤ length room.old) × (line_room ≤ length out.old) × (length line.now ≤ most_read) }
    ensures { result ≡ next_line p.number (host_after p.host p.number (line_in line.now p.len)) result.going }
{
    let r = give_line(p, line, states, room, out);
    Replay {
        host: r.host,
        number: p.number.wrapping_add(1),
        len: 0,
        going: print(rt, out, r.at),
    }
}

// Plays the lines that end in this piece of the script. If it does not go on, what is left is open: nothing reads it again.
fn read_piece(
    rt: &(impl Print + Eprint),
    p: Replay,
    piece: &[u8],
    line: &mut [u8],
    states: bool,
    room: &mut [u8],
    out: &mut [u8],
) -> Replay
    requires { (length line.old ≤ length room.old) × (line_room ≤ length out.old) × (length line.old ≤ most_read) }
    ensures { result.going ≡ true → reading_of result line.new ≡ read (length line.old) piece.now (reading_of p line.old) }
{
    let mut q = p;
    let mut from = 0;
    // By place and not by `split`: of its last part it is left open whether the line has ended.
    while from < piece.len() {
        let e = replay_script::find(piece, from, 10);
        q.len = keep(line, q.len, &piece[from..e]);
        if piece.len() <= e {
            return q;
        }
        q = finish_line(rt, q, line, states, room, out);
        if !q.going {
            return q;
        }
        from = e + 1;
    }
    q
}

// Reads a piece of the script. At its end the last line is played, and then, or if reading fails, it does not go on. Which
// bytes the piece has is open, and if it does not go on, what is left.
fn turn(
    rt: &(impl Print + Eprint),
    script: &mut impl Read,
    p: Replay,
    line: &mut [u8],
    states: bool,
    room: &mut [u8],
    out: &mut [u8],
) -> Replay
    requires { (length line.old ≤ length room.old) × (line_room ≤ length out.old) × (length line.old ≤ most_read) }
    ensures { result.going ≡ true → ReadOn (length line.old) (reading_of p line.old) (reading_of result line.new) }
{
    let mut piece = [0u8; 4096];
    let mut q = p;
    match script.read(&mut piece) {
        Ok(0) => {
            if 0 < q.len {
                q = finish_line(rt, q, line, states, room, out);
            }
        }
        Ok(n) => return read_piece(rt, p, &piece[..n], line, states, room, out),
        Err(e) => fail(rt, "standard input", e),
    }
    q.going = false;
    q
}

fn run(
    rt: &(impl Print + Eprint),
    script: &mut impl Read,
    states: bool,
    line: &mut [u8],
    room: &mut [u8],
    out: &mut [u8],
)
    requires { (length line.old ≤ length room.old) × (line_room ≤ length out.old) × (length line.old ≤ most_read) }
{
    let mut p = Replay {
        host: replay_player::first_host(),
        number: 1,
        len: 0,
        going: true,
    };
    for _ in 0..u64::MAX {
        p = turn(rt, script, p, line, states, room, out);
        if !p.going {
            return;
        }
    }
}

fn play(rt: &(impl Print + Eprint), script: &mut impl Read, states: bool) {
    let mut line = [0u8; 16384];
    let mut room = [0u8; 16384];
    let mut out = replay_played::line_memory();
    run(rt, script, states, &mut line, &mut room, &mut out);
}

fn main(rt: HostRuntime) {
    let mut first = [0u8; 16];
    let n = input::arg(&rt, 1, &mut first);
    match replay_arguments::asked_by(input::arg_count(&rt), &first[..n]) {
        Ok(asked) => play(&rt, &mut rt.stdin(), asked == Asked::States),
        Err(UnknownArgument(place)) => refuse(&rt, &rt.stderr(), place),
    }
}
