// Signals.
#![tactic(auto, unfolding(crate::specs::Signals::next, crate::specs::Signals::raised, crate::specs::Signals::read_only, crate::specs::Signals::approval, crate::specs::Signals::validations, crate::specs::Signals::running, crate::specs::Signals::challenge, crate::specs::Signals::ended, crate::specs::Signals::listed))]

ghost use Rattle.std.specs.Prelude.{◌≡◌};
ghost use Rattle.replay_page.specs.Page.{page};
ghost use Rattle.replay_signals.specs.Signals.{next, raised, read_only, approval, validations, running, challenge, ended, listed, signals};

use state::{
    ApprovalSignal, Challenge, ChallengeSignal, ReadOnlySignal, Signals, ValidationsSignal,
};

// The name of a signal; a comma before it, unless the list begins here.
fn put_next(out: &mut [u8], at: usize, from: usize, name: &[u8]) -> usize
    ensures { page out.new result ≡ next from name.now (page out.old at) }
{
    let k = if at == from {
        at
    } else {
        replay_page::put_text(out, at, b",")
    };
    replay_page::put_text(out, k, name)
}

fn put_raised(out: &mut [u8], at: usize, from: usize, sent: bool, name: &[u8]) -> usize
    ensures { page out.new result ≡ raised from sent name.now (page out.old at) }
{
    if sent {
        put_next(out, at, from, name)
    } else {
        at
    }
}

fn put_read_only(out: &mut [u8], at: usize, from: usize, s: ReadOnlySignal) -> usize
    ensures { page out.new result ≡ read_only from s (page out.old at) }
{
    if !s.sent {
        return at;
    }
    let k = put_next(out, at, from, b"R:");
    replay_page::put_yes_no(out, k, s.value)
}

fn put_approval(out: &mut [u8], at: usize, from: usize, s: ApprovalSignal) -> usize
    ensures { page out.new result ≡ approval from s (page out.old at) }
{
    if !s.sent {
        return at;
    }
    let k = put_next(out, at, from, b"P:");
    if s.car.known {
        replay_page::put_bytes(out, k, &s.car.digest)
    } else {
        replay_page::put_text(out, k, b"erase")
    }
}

fn put_validations(out: &mut [u8], at: usize, from: usize, s: ValidationsSignal) -> usize
    ensures { page out.new result ≡ validations from s (page out.old at) }
{
    if !s.sent {
        return at;
    }
    let k = put_next(out, at, from, b"S:");
    if s.stored.len == 0 {
        replay_page::put_text(out, k, b"erase")
    } else {
        replay_lines::parts::put_saved(out, k, s.stored)
    }
}

// SESSION/PLACE/CODE
fn put_running(out: &mut [u8], at: usize, c: Challenge) -> usize
    ensures { page out.new result ≡ running c (page out.old at) }
{
    let k = replay_page::put_number(out, at, c.session as u64);
    let k = replay_page::put_item(out, k, b"/", c.method as u64);
    let k = replay_page::put_text(out, k, b"/");
    replay_page::put_digits(out, k, &c.code, c.length)
}

fn put_challenge(out: &mut [u8], at: usize, from: usize, s: ChallengeSignal) -> usize
    ensures { page out.new result ≡ challenge from s (page out.old at) }
{
    if !s.sent {
        return at;
    }
    let k = put_next(out, at, from, b"C:");
    if s.challenge.running {
        put_running(out, k, s.challenge)
    } else {
        replay_page::put_text(out, k, b"none")
    }
}

// A list that is empty.
fn put_end(out: &mut [u8], at: usize, from: usize) -> usize
    ensures { page out.new result ≡ ended from (page out.old at) }
{
    if at == from {
        replay_page::put_text(out, at, b"none")
    } else {
        at
    }
}

// The list, which begins at `from`.
fn put_listed(out: &mut [u8], at: usize, from: usize, s: Signals) -> usize
    ensures { page out.new result ≡ listed from s (page out.old at) }
{
    let k = put_raised(out, at, from, s.access, b"A");
    let k = put_raised(out, k, from, s.availability, b"V");
    let k = put_read_only(out, k, from, s.readonly);
    let k = put_approval(out, k, from, s.approval);
    let k = put_validations(out, k, from, s.validations);
    let k = put_challenge(out, k, from, s.challenge);
    put_end(out, k, from)
}

// The channels raised.
pub fn put_signals(out: &mut [u8], at: usize, s: Signals) -> usize
    ensures { page out.new result ≡ signals s (page out.old at) }
{
    let from = replay_page::put_text(out, at, b" signals=");
    put_listed(out, from, from, s)
}
