// Frames that wait, sixteen records by value: a turn, and a run of turns, on a gate in range (02, W-204).
#![tactic(auto)]

ghost use Rattle.std.specs.Prelude.{◌≡◌, [], ◌<◌};
ghost use Rattle.state.specs.View.{lists_in};
ghost use Rattle.can_turns.specs.Turns.{owner_validated, no_turn, report_of, serving};
ghost use Rattle.can_turns.specs.Steps.{Reports, Turns, run_of};

use frames::{CanFrame, Id};
use state::{Core, Decided, Identity, Phones, Queue, Report};
use waiting_list::Waiting;

// Where a run stands.
#[derive(Clone, Copy)]
pub struct Run {
    pub core: Core,
    pub queue: Queue,
    pub all: [Waiting; 16],
    pub report: Report,
}

// An owner that the host altered to more than 32 bytes is no id, and unknown.
fn owner_validated(identity: Identity, phones: Phones, w: Waiting) -> bool
    ensures { result ≡ owner_validated identity (lists_in phones) w }
{
    phones::id_in_range(w.owner)
        && phone_trust::is_phone_validated(identity, phones, w.owner.used())
}

// One decision more.
fn with_decision(report: Report, frame: CanFrame, allowed: bool) -> Report
    ensures { Reports result report frame allowed }
{
    let mut next = report;
    if next.turns < 16 {
        next.frames[next.turns] = Decided { frame, allowed };
        next.turns += 1;
    }
    next
}

// One turn: the oldest frame of the next bus that has one, decided by allow at this clock; the later ones move up.
fn turn(phones: Phones, clock: u64, s: Run) -> Run
    ensures { Turns result (lists_in phones) clock s }
{
    let place = waiting_list::next_place(s.all, s.queue.count, s.queue.last);
    let w = waiting_list::under_bus(waiting_list::record_at(s.all, place));
    let validated = owner_validated(s.core.policy.identity, phones, w);
    let v = can_tx::decide_can_tx(s.core, w.frame.bus, w.frame, w.class, validated, clock);
    Run {
        core: can_tx::core_by(s.core, v),
        queue: Queue {
            count: s.queue.count.saturating_sub(1),
            last: w.frame.bus,
        },
        all: waiting_list::closed_up(s.all, place, s.queue.count),
        report: with_decision(s.report, w.frame, can_tx::is_yes(v)),
    }
}

// Of no turn.
pub fn no_report() -> Report
    ensures { result ≡ report_of [] }
{
    let frame = CanFrame {
        bus: 0,
        id: Id::Standard(0),
        data: [0; 8],
        dlc: 0,
    };
    let one = Decided {
        frame,
        allowed: false,
    };
    Report {
        turns: 0,
        frames: [one; 16],
    }
}

// Before the first turn.
pub fn no_turn(core: Core, q: Queue, all: [Waiting; 16]) -> Run
    ensures { result ≡ run_of (no_turn core q all) }
{
    Run {
        core,
        queue: q,
        all,
        report: no_report(),
    }
}

pub fn serve_can_frames(
    core: Core,
    phones: Phones,
    q: Queue,
    all: [Waiting; 16],
    turns: u32,
    clock: u64,
) -> Run
    requires { q.count < 17 }
    ensures { result ≡ run_of (serving core (lists_in phones) q all turns clock) }
{
    let n = (turns as usize).min(q.count);
    let mut s = no_turn(core, q, all);
    for _ in 0..n {
        s = turn(phones, clock, s);
    }
    s
}
