// What a round looks at in what a call gives, as one number.
ghost use Rattle.std.specs.Prelude.{◌≡◌, ◌%◌, ◌^◌, []};
ghost use Rattle.definition.specs.Gate.{given, ran_given};
ghost use Rattle.bench_calls.specs.Seen as Seen;
ghost use Rattle.bench_calls.specs.Seen.{record_byte};
ghost use Rattle.bench_calls.specs.Rounds as Rounds;

use saved_record::SavedRecord;
use state::{Answer, Challenge, Outcome, Ran, Report, Signals};

pub fn add(x: u32, y: u32) -> u32
    ensures { result ≡ Seen.add x y }
{
    x.wrapping_add(y)
}

fn narrow(x: usize) -> u32
    ensures { result ≡ x % 2 ^ 32 }
{
    (x % 4_294_967_296) as u32
}

// The weight, or 0.
fn bit(b: bool, weight: u32) -> u32
    ensures { result ≡ Seen.bit b weight }
{
    if b { weight } else { 0 }
}

// Another byte of a car's part at each turn: the version and the count of cars, which the source's record does not have, are left out.
pub fn record_byte(r: SavedRecord, i: u64) -> u32
    ensures { result ≡ record_byte r i }
{
    u32::from(r.bytes[(i % 1089) as usize + 2])
}

// Another digit at each turn.
fn digit(c: Challenge, i: u64) -> u32
    ensures { result ≡ Seen.digit c i }
{
    u32::from(c.code[(i % 9) as usize])
}

fn flags(s: Signals) -> u32
    ensures { result ≡ Seen.flags s }
{
    let low = add(bit(s.access, 1), bit(s.availability, 2));
    let middle = add(bit(s.readonly.sent, 4), bit(s.approval.sent, 8));
    let high = add(bit(s.validations.sent, 16), bit(s.challenge.sent, 32));
    add(low, add(middle, high))
}

fn raised(s: Signals, i: u64) -> u32
    ensures { result ≡ Seen.raised s i }
{
    let bytes = add(
        record_byte(s.validations.stored, i),
        digit(s.challenge.challenge, i),
    );
    add(flags(s), bytes)
}

fn answer_seen(a: Answer) -> u32
    ensures { result ≡ Seen.answer_seen a }
{
    match a {
        Answer::Done => 2,
        Answer::Yes => 1,
        Answer::Session(s) => add(s.seconds, 3),
        Answer::WrongCode(s) => add(s.seconds, 4),
        _ => 0,
    }
}

// The sum after a call.
pub fn after(sum: u32, o: Outcome, i: u64) -> u32
    ensures { result ≡ (Rounds.after sum (given o) i).sum }
{
    add(sum, add(answer_seen(o.answer), raised(o.signals, i)))
}

// How many turns a run took, and whether its first frame passes.
fn report_seen(r: Report) -> u32
    ensures { result ≡ Seen.report_seen r }
{
    add(narrow(r.turns), bit(r.frames[0].allowed, 1))
}

// The sum after a run.
pub fn after_run(sum: u32, r: Ran, i: u64) -> u32
    ensures { result ≡ (Rounds.after sum (ran_given r []) i).sum }
{
    let told = add(answer_seen(r.outcome.answer), report_seen(r.report));
    add(sum, add(told, raised(r.outcome.signals, i)))
}
