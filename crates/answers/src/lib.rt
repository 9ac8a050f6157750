// What the queries answer, on a core in range or out of it (25). No query changes the gate or raises a signal.
#![tactic(auto)]

use phone_trust::Trust;
use phones::{PhoneList, ShortId};
use policy::Approval;
use saved_record::{SavedRecord, Store};
use state::{Answer, Challenge, Kind, Method};

// can_read_write_approval.
#[derive(Clone, Copy)]
pub struct ApprovalAnswer {
    pub answer: Answer,
    pub approval: Approval,
}

// CanAccessState: the platform confirmed, the car confirmed, the approval, the dev lock, logging, read-only.
#[derive(Clone, Copy)]
pub struct AccessAnswer {
    pub answer: Answer,
    pub platform: bool,
    pub car: bool,
    pub approval: Approval,
    pub devlock: bool,
    pub unlocked: bool,
    pub logging: bool,
    pub readonly: bool,
}

// list_paired_phones.
#[derive(Clone, Copy)]
pub struct PhonesAnswer {
    pub answer: Answer,
    pub phones: PhoneList,
}

// phone_trust_level.
#[derive(Clone, Copy)]
pub struct TrustAnswer {
    pub answer: Answer,
    pub trust: Trust,
}

// The connected phone, and whether it is validated.
#[derive(Clone, Copy)]
pub struct PeerAnswer {
    pub answer: Answer,
    pub peer: ShortId,
    pub validated: bool,
}

// PhoneAccessState; `session` is `Session` or `Nothing`.
#[derive(Clone, Copy)]
pub struct PhoneAccessAnswer {
    pub answer: Answer,
    pub trust: Trust,
    pub car_has_validated: bool,
    pub session: Answer,
}

// PhoneValidationMethods: each method in its order, and whether it can start now.
#[derive(Clone, Copy)]
pub struct MethodsAnswer {
    pub answer: Answer,
    pub list: [Method; 8],
    pub available: [bool; 8],
    pub count: usize,
}

// current_validation_challenge.
#[derive(Clone, Copy)]
pub struct ChallengeAnswer {
    pub answer: Answer,
    pub challenge: Challenge,
}

// encode_phone_validations.
#[derive(Clone, Copy)]
pub struct RecordAnswer {
    pub answer: Answer,
    pub stored: SavedRecord,
}

// Which phones would go (W-203): what an operation would answer, the lists that it would leave, and the bytes that their record
// would need.
#[derive(Clone, Copy)]
pub struct PreviewAnswer {
    pub answer: Answer,
    pub paired: PhoneList,
    pub store: Store,
    pub bytes: usize,
}
