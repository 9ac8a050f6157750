// The calls on the frames that wait, in a list of sixteen records that the host lends (02, W-204). State by value in; answer, signals, report
// and state by value out. The promises of the two calls are equations with `step` of definition/specs/Gate.antt, for every gate and every
// list that is lent; those of their parts, which have the sixteen records by value, with specs/Given.antt. The two calls, and `load` and
// `store` of waiting_list, alone see the lent list.
#![tactic(auto)]

ghost use Rattle.std.specs.Prelude.{◌≡◌};
ghost use Rattle.definition.specs.Gate.{send_can_frame, serve_can_frames, on_queue, step, lent_records, ran_given};
ghost use Rattle.gate_queue.specs.Given.{sending_of, sent_of, unsent_of, ran_of, served_of, unserved_of};

use can_queue::Sent;
use can_turns::Run;
use frames::{CanFrame, TxClass};
use state::{Answer, Gate, Outcome, Ran};
use waiting_list::Waiting;

// What sending a frame gives, and the list that it leaves.
#[derive(Clone, Copy)]
pub struct SentOn {
    pub outcome: Outcome,
    pub all: [Waiting; 16],
}

// What a run gives, and the list that it leaves.
#[derive(Clone, Copy)]
pub struct RanOn {
    pub ran: Ran,
    pub all: [Waiting; 16],
}

// ---- sending

fn sent_on(g: Gate, x: Sent) -> SentOn
    ensures { result ≡ sending_of g x }
{
    // An array that is a field cannot stand in a literal.
    let all = x.all;
    SentOn {
        outcome: outcomes::queued(g, x.answer, g.core, x.queue),
        all,
    }
}

// 25 first.
#[tactic(auto, unfolding(crate::specs::Given::sending_on, state::specs::View::view))]
pub fn send_sixteen(
    g: Gate,
    all: [Waiting; 16],
    frame: CanFrame,
    class: TxClass,
    owner: &[u8],
) -> SentOn
    ensures { result ≡ sent_of g all frame class owner.now }
{
    if range::in_range(g) {
        let x = can_queue::send_can_frame(g.queue, all, frame, class, owner);
        sent_on(g, x)
    } else {
        sent_on(g, can_queue::unsent(g.queue, all, Answer::BadSettings))
    }
}

// 25 first; a list of another length takes no frame.
#[tactic(auto, unfolding(crate::specs::Given::sending_on, state::specs::View::view))]
pub fn send_none(g: Gate, frame: CanFrame, class: TxClass, owner: &[u8]) -> Outcome
    ensures { result ≡ unsent_of g frame class owner.now }
{
    if range::in_range(g) {
        let answer = can_queue::refused(g.queue, frame, class, owner);
        outcomes::queued(g, answer, g.core, g.queue)
    } else {
        outcomes::queued(g, Answer::BadSettings, g.core, g.queue)
    }
}

// Puts a frame behind those that wait.
pub fn send_can_frame(
    g: Gate,
    list: &mut [Waiting],
    frame: CanFrame,
    class: TxClass,
    owner: &[u8],
) -> Outcome
    ensures { lent_records result list.new ≡ step g (on_queue (send_can_frame list.old frame class owner.now)) }
{
    if list.len() == 16 {
        let out = send_sixteen(g, waiting_list::load(list), frame, class, owner);
        waiting_list::store(list, out.all);
        out.outcome
    } else {
        send_none(g, frame, class, owner)
    }
}

// ---- serving

fn ran_on(g: Gate, answer: Answer, x: Run) -> RanOn
    ensures { result ≡ ran_of g answer x }
{
    // As in `sent_on`.
    let all = x.all;
    RanOn {
        ran: Ran {
            outcome: outcomes::queued(g, answer, x.core, x.queue),
            report: x.report,
        },
        all,
    }
}

// 25 first, with no turn.
#[tactic(auto, unfolding(crate::specs::Given::served_of, state::specs::View::view))]
pub fn serve_sixteen(g: Gate, all: [Waiting; 16], turns: u32, clock: u64) -> RanOn
    ensures { result ≡ served_of g all turns clock }
{
    if range::in_range(g) {
        let x = can_turns::serve_can_frames(g.core, g.phones, g.queue, all, turns, clock);
        ran_on(g, Answer::Done, x)
    } else {
        ran_on(
            g,
            Answer::BadSettings,
            can_turns::no_turn(g.core, g.queue, all),
        )
    }
}

// 25 first; a list of another length takes no turns.
#[tactic(auto, unfolding(state::specs::View::view))]
pub fn serve_none(g: Gate) -> Ran
    ensures { result ≡ unserved_of g }
{
    let answer = if range::in_range(g) {
        Answer::Done
    } else {
        Answer::BadSettings
    };
    Ran {
        outcome: outcomes::queued(g, answer, g.core, g.queue),
        report: can_turns::no_report(),
    }
}

// Takes turns, as many as given or as frames wait, and reports each frame with its yes or no.
pub fn serve_can_frames(g: Gate, list: &mut [Waiting], turns: u32, clock: u64) -> Ran
    ensures { ran_given result list.new ≡ step g (on_queue (serve_can_frames list.old turns clock)) }
{
    if list.len() == 16 {
        let out = serve_sixteen(g, waiting_list::load(list), turns, clock);
        waiting_list::store(list, out.all);
        out.ran
    } else {
        serve_none(g)
    }
}
