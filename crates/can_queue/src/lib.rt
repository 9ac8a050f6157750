// Frames that wait, sixteen records by value: sending one, on a gate in range (02, W-204).
#![tactic(auto)]

ghost use Rattle.std.specs.Prelude.{◌≡◌, [], ◌-◌, ◌<◌};
ghost use Rattle.phones.specs.Phones.{made_id};
ghost use Rattle.can_queue.specs.Calls as Calls;
ghost use Rattle.can_queue.specs.Steps.{looked, sent_by};

use frames::{CanFrame, TxClass};
use phones::ShortId;
use state::{Answer, Queue};
use waiting_list::Waiting;

// What sending a frame says.
#[derive(Clone, Copy)]
pub struct Sent {
    pub answer: Answer,
    pub queue: Queue,
    pub all: [Waiting; 16],
}

// A platform frame has no owner: what is lent beside it is not looked at.
fn owner_for(class: TxClass, owner: &[u8]) -> Option<ShortId>
    ensures { result ≡ made_id (Calls.owner_for class owner.now) }
{
    match class {
        TxClass::Platform => phones::make_id(b""),
        TxClass::Command => phones::make_id(owner),
    }
}

// The id of a frame's record, or what refuses it whatever waits: 24, then 18, then 26.
fn look_at(frame: CanFrame, class: TxClass, owner: &[u8]) -> Result<ShortId, Answer>
    ensures { result ≡ looked frame class owner.now }
{
    if !frames::can_id_in_range(frame.id) {
        return Err(Answer::BadFrame);
    }
    match owner_for(class, owner) {
        None => Err(Answer::IdTooLong),
        Some(id) if frames::bus_exists(frame.bus) => Ok(id),
        Some(_) => Err(Answer::BadBus),
    }
}

// A refusal leaves the list.
pub fn unsent(q: Queue, all: [Waiting; 16], answer: Answer) -> Sent
    ensures { result ≡ sent_by all (Calls.unsent q answer) }
{
    Sent {
        answer,
        queue: q,
        all,
    }
}

pub fn send_can_frame(
    q: Queue,
    all: [Waiting; 16],
    frame: CanFrame,
    class: TxClass,
    owner: &[u8],
) -> Sent
    ensures { result ≡ sent_by all (Calls.sending q all frame class owner.now) }
{
    match look_at(frame, class, owner) {
        Err(answer) => unsent(q, all, answer),
        Ok(owner) => {
            if 15 < q.count {
                return unsent(q, all, Answer::QueueFull);
            }
            let w = Waiting {
                frame,
                class,
                owner,
            };
            Sent {
                answer: Answer::Done,
                queue: Queue {
                    count: q.count + 1,
                    ..q
                },
                all: waiting_list::put_record(all, q.count, w),
            }
        }
    }
}

// What a list of another length answers: 24, 18 and 26 come before 27.
pub fn refused(q: Queue, frame: CanFrame, class: TxClass, owner: &[u8]) -> Answer
    ensures { result ≡ (Calls.sending q [] frame class owner.now).answer }
{
    match look_at(frame, class, owner) {
        Ok(_) => Answer::QueueFull,
        Err(answer) => answer,
    }
}
