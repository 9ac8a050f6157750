// The state of the gate, by value: the source's statics as one struct. The phone lists and the digits of the drawn code stand
// beside a small `Core`. No operation on a core is given them: it is told verdicts on them, and says by a `Mark` where digits go.
#![tactic(auto)]

pub mod parts;
pub mod replies;
pub mod running;

use frames::{CanFrame, ProbeFrame};
use phones::{PhoneList, ShortId};
use saved_record::{SavedRecord, Store};

// ValidationKind.
#[derive(Clone, Copy, PartialEq, Eq)]
pub enum Kind {
    CodeEntry,
    InCarAction,
}

// PhoneValidationStatus.
#[derive(Clone, Copy, PartialEq, Eq)]
pub enum Status {
    InProgress,
    Succeeded,
    Failed,
    Cancelled,
    TimedOut,
}

// ValidationMethod.
#[derive(Clone, Copy)]
pub struct Method {
    pub id: ShortId,
    pub kind: Kind,
    pub needs_approval: bool,
}

// The constants of the source that a new gate is given; times in ms.
#[derive(Clone, Copy)]
pub struct Settings {
    pub digits: usize,
    pub tries: usize,
    pub session: u64,
    pub cooldown: u64,
    pub keep: u64,
    pub bonded: usize,
}

// The methods in their order, and what the host noted of each: may it start, may its session go on.
#[derive(Clone, Copy)]
pub struct Methods {
    pub list: [Method; 8],
    pub count: usize,
    pub available: [bool; 8],
    pub continues: [bool; 8],
}

// A car's digest, or none (and zeros).
#[derive(Clone, Copy)]
pub struct Car {
    pub known: bool,
    pub digest: [u8; 32],
}

// The two stages of a car's identity: the platform's number and whether it is confirmed, then the car.
#[derive(Clone, Copy)]
pub struct Identity {
    pub platform: u32,
    pub confirmed: bool,
    pub car: Car,
}

// The owner's approval, the dev lock (unlocked or not) and whether this is a production build, which has no dev lock.
#[derive(Clone, Copy)]
pub struct Access {
    pub approval: Car,
    pub unlocked: bool,
    pub production: bool,
}

// The vehicle's read-only flag, CAN logging, and which bus is CAN FD.
#[derive(Clone, Copy)]
pub struct Buses {
    pub vehicle_read_only: bool,
    pub logging: bool,
    pub fd: [bool; 4],
}

// What can.rs and can_access.rs keep of the car and of who may write to it.
#[derive(Clone, Copy)]
pub struct Policy {
    pub identity: Identity,
    pub access: Access,
    pub buses: Buses,
}

// Session of validation.rs, without its code and its tries.
#[derive(Clone, Copy)]
pub struct Session {
    pub present: bool,
    pub number: u32,
    pub phone: ShortId,
    pub method: usize,
    pub car: [u8; 32],
    pub deadline: u64,
    pub status: Status,
    pub ended: u64,
}

// State of validation.rs: the latest session, the end of the cooldown, the next session's number; and the tries left, which are the gate's
// and not a session's (W-206).
#[derive(Clone, Copy)]
pub struct Validation {
    pub session: Session,
    pub cooldown_until: u64,
    pub next: u32,
    pub tries: usize,
}

// Window of can_probe.rs with the probe it was opened for; `sent` marks the frames that passed.
#[derive(Clone, Copy)]
pub struct Window {
    pub present: bool,
    pub bus: u8,
    pub frames: [ProbeFrame; 4],
    pub count: usize,
    pub opened: u64,
    pub relocks: u32,
    pub sent: [bool; 4],
}

// The statics of can_probe.rs: the window, ATTEMPTS, RELOCKS, LAST_RX_MS; of this, for each bus whether a frame was heard and when the
// last one was (W-201).
#[derive(Clone, Copy)]
pub struct Probe {
    pub window: Window,
    pub attempts: u8,
    pub relocks: u32,
    pub heard: [bool; 4],
    pub marks: [u64; 4],
}

// Everything but the lists, a save, the waiting frames and the digits. `peer` is the connected phone, none exactly if its length is 0.
#[derive(Clone, Copy)]
pub struct Core {
    pub settings: Settings,
    pub methods: Methods,
    pub policy: Policy,
    pub peer: ShortId,
    pub validation: Validation,
    pub probe: Probe,
}

// The lists: who is paired, and who is validated.
#[derive(Clone, Copy)]
pub struct Phones {
    pub paired: PhoneList,
    pub store: Store,
}

// A save of the record, as it was when the save was opened (W-209); its first `at` bytes were handed out. Not present: none is open, and zeros.
#[derive(Clone, Copy)]
pub struct Save {
    pub stored: SavedRecord,
    pub at: usize,
    pub present: bool,
}

// The frames that wait in the list that the host lends (W-204): how many of its records, and the bus last served.
#[derive(Clone, Copy)]
pub struct Queue {
    pub count: usize,
    pub last: u8,
}

#[derive(Clone, Copy)]
pub struct Gate {
    pub core: Core,
    pub phones: Phones,
    pub save: Save,
    pub queue: Queue,
    pub code: [u8; 9],
}

// PhoneValidationSession: what a session shows. `length`, `tries` are 0 unless its method is CodeEntry.
#[derive(Clone, Copy, PartialEq, Eq)]
pub struct SessionReply {
    pub method: usize,
    pub kind: Kind,
    pub status: Status,
    pub length: usize,
    pub tries: usize,
    pub seconds: u32,
    pub cooldown: u32,
}

// What a call answers; `number` of specs/Answers.antt gives document 01's number of each refusal.
#[derive(Clone, Copy, PartialEq, Eq)]
pub enum Answer {
    Done,
    Yes,
    No,
    Nothing,
    Count(usize),
    Number(u32),
    Reason(u8),
    Session(SessionReply),
    Taken(usize, bool),
    UnknownMethod,
    CarNotIdentified,
    CoolingDown(u32),
    OtherPhoneSession,
    MethodUnavailable,
    MethodNotAvailableNow,
    NoRandomSource,
    NoSession,
    NotCodeEntry,
    WrongCode(SessionReply),
    NoDevLock,
    NotNeeded,
    Logging,
    BusAsleep,
    Busy,
    NoAttemptsLeft,
    Invalid,
    IdTooLong,
    RandomSpent,
    NotText,
    ListFull,
    Malformed,
    TooLarge,
    BadFrame,
    BadSettings,
    BadBus,
    QueueFull,
    CarTwice,
    NoSave,
}

// CAN_READ_ONLY_WATCH.
#[derive(Clone, Copy)]
pub struct ReadOnlySignal {
    pub sent: bool,
    pub value: bool,
}

// APPROVAL_TO_STORE: a digest to store, or none: erase.
#[derive(Clone, Copy)]
pub struct ApprovalSignal {
    pub sent: bool,
    pub car: Car,
}

// VALIDATIONS_TO_STORE: the record to store; of length 0: erase.
#[derive(Clone, Copy)]
pub struct ValidationsSignal {
    pub stored: SavedRecord,
    pub sent: bool,
}

// ValidationChallenge: none, or the running session's number and method, and its digits. `length` is their number, 0 for
// an in-car action.
#[derive(Clone, Copy)]
pub struct Challenge {
    pub running: bool,
    pub session: u32,
    pub method: usize,
    pub length: usize,
    pub code: [u8; 9],
}

// CHALLENGE.
#[derive(Clone, Copy)]
pub struct ChallengeSignal {
    pub sent: bool,
    pub challenge: Challenge,
}

// The last value that a call sent on each channel: CAN_ACCESS_CHANGED, the availability's CHANGED, and those above. The record stands
// first, so that one that is not sent is set to zeros in its place, and not copied there.
#[derive(Clone, Copy)]
pub struct Signals {
    pub validations: ValidationsSignal,
    pub access: bool,
    pub availability: bool,
    pub readonly: ReadOnlySignal,
    pub approval: ApprovalSignal,
    pub challenge: ChallengeSignal,
}

// What an operation sends: every channel but VALIDATIONS_TO_STORE, whose value is the record of the store that the call leaves.
#[derive(Clone, Copy)]
pub struct Raised {
    pub access: bool,
    pub availability: bool,
    pub readonly: ReadOnlySignal,
    pub approval: ApprovalSignal,
    pub challenge: ChallengeSignal,
}

// Where digits come from: there are none, the gate's, or those that this call drew.
#[derive(Clone, Copy, PartialEq, Eq)]
pub enum Mark {
    Blank,
    Kept,
    Fresh,
}

// What an operation on a core says: `shows` marks the digits of the challenge, `code` those of the gate. The lists stay.
#[derive(Clone, Copy)]
pub struct Said {
    pub answer: Answer,
    pub raised: Raised,
    pub shows: Mark,
    pub core: Core,
    pub code: Mark,
}

// What an operation on a session says: the lists stay, or the session's phone is validated for the session's car.
#[derive(Clone, Copy)]
pub struct Ended {
    pub said: Said,
    pub validates: bool,
}

// What an operation on the lists gives: the core and the digits stay. `stores`: the store's record is sent.
#[derive(Clone, Copy)]
pub struct Listed {
    pub answer: Answer,
    pub raised: Raised,
    pub stores: bool,
    pub phones: Phones,
}

// What a call gives.
#[derive(Clone, Copy)]
pub struct Outcome {
    pub answer: Answer,
    pub signals: Signals,
    pub gate: Gate,
}

// A frame that a turn took, under its bus modulo 4, and whether allow let it pass.
#[derive(Clone, Copy)]
pub struct Decided {
    pub frame: CanFrame,
    pub allowed: bool,
}

// What a run of turns reports (W-204): how many it took, and for each in order the frame and yes or no; past them empty frames and no.
#[derive(Clone, Copy)]
pub struct Report {
    pub turns: usize,
    pub frames: [Decided; 16],
}

// What a run gives.
#[derive(Clone, Copy)]
pub struct Ran {
    pub outcome: Outcome,
    pub report: Report,
}
