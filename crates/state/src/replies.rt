// Signals, and what operations on a core say.
ghost use Rattle.std.specs.Prelude.{◌≡◌};
ghost use Rattle.state.specs.Replies.{no_car, no_challenge, no_s, nothing_raised, phone_access_changed, read_only_changed, approval_changed, challenge_changed, no_signals, yes_no, code_at};
ghost use Rattle.state.specs.Replies as Replies;

use crate::{
    Answer, ApprovalSignal, Car, Challenge, ChallengeSignal, Core, Mark, Raised, ReadOnlySignal,
    Said, Signals, ValidationsSignal,
};

pub fn no_car() -> Car
    ensures { result ≡ no_car }
{
    Car {
        known: false,
        digest: [0; 32],
    }
}

pub fn no_challenge() -> Challenge
    ensures { result ≡ no_challenge }
{
    Challenge {
        running: false,
        session: 0,
        method: 0,
        length: 0,
        code: [0; 9],
    }
}

#[tactic(auto, unfolding(crate::specs::Replies::nothing_raised))]
pub fn nothing_raised() -> Raised
    ensures { result ≡ nothing_raised }
{
    Raised {
        access: false,
        availability: false,
        readonly: ReadOnlySignal {
            sent: false,
            value: false,
        },
        approval: ApprovalSignal {
            sent: false,
            car: no_car(),
        },
        challenge: ChallengeSignal {
            sent: false,
            challenge: no_challenge(),
        },
    }
}

// notify_phone_access_changed.
#[tactic(auto, unfolding(crate::specs::Replies::phone_access_changed, crate::specs::Replies::nothing_raised))]
pub fn phone_access_changed() -> Raised
    ensures { result ≡ phone_access_changed }
{
    Raised {
        access: true,
        availability: true,
        ..nothing_raised()
    }
}

// notify_can_read_only_changed.
#[tactic(auto, unfolding(crate::specs::Replies::read_only_changed, crate::specs::Replies::nothing_raised))]
pub fn read_only_changed(value: bool) -> Raised
    ensures { result ≡ read_only_changed value }
{
    Raised {
        access: true,
        readonly: ReadOnlySignal { sent: true, value },
        ..nothing_raised()
    }
}

// An approval that was given or revoked.
#[tactic(auto, unfolding(crate::specs::Replies::approval_changed, crate::specs::Replies::read_only_changed))]
pub fn approval_changed(car: Car, value: bool) -> Raised
    ensures { result ≡ approval_changed car value }
{
    Raised {
        approval: ApprovalSignal { sent: true, car },
        ..read_only_changed(value)
    }
}

// A challenge that started or ended.
#[tactic(auto, unfolding(crate::specs::Replies::challenge_changed, crate::specs::Replies::phone_access_changed))]
pub fn challenge_changed(challenge: Challenge) -> Raised
    ensures { result ≡ challenge_changed challenge }
{
    Raised {
        challenge: ChallengeSignal {
            sent: true,
            challenge,
        },
        ..phone_access_changed()
    }
}

// S is not sent.
pub fn no_stored() -> ValidationsSignal
    ensures { result ≡ no_s }
{
    ValidationsSignal {
        sent: false,
        stored: saved_record::no_record(),
    }
}

// Every channel: S beside what the operation sends.
pub fn sending(raised: Raised, validations: ValidationsSignal) -> Signals
    ensures { result ≡ Replies.sending raised validations }
{
    Signals {
        access: raised.access,
        availability: raised.availability,
        readonly: raised.readonly,
        approval: raised.approval,
        validations,
        challenge: raised.challenge,
    }
}

#[tactic(auto, unfolding(crate::specs::Replies::no_signals, crate::specs::Replies::nothing_raised))]
pub fn no_signals() -> Signals
    ensures { result ≡ no_signals }
{
    sending(nothing_raised(), no_stored())
}

pub fn yes_no(b: bool) -> Answer
    ensures { result ≡ yes_no b }
{
    if b { Answer::Yes } else { Answer::No }
}

// Nothing changes, and nothing is raised.
#[tactic(auto, unfolding(crate::specs::Replies::leave, crate::specs::Replies::reply))]
pub fn leave(core: Core, answer: Answer) -> Said
    ensures { result ≡ Replies.leave core answer }
{
    reply(core, answer, nothing_raised())
}

#[tactic(auto, unfolding(crate::specs::Replies::quiet, crate::specs::Replies::leave))]
pub fn quiet(core: Core, answer: Answer) -> Said
    ensures { result ≡ Replies.quiet core answer }
{
    leave(core, answer)
}

// The digits stay, if there are any.
#[tactic(auto, unfolding(crate::specs::Replies::reply))]
pub fn reply(core: Core, answer: Answer, raised: Raised) -> Said
    ensures { result ≡ Replies.reply core answer raised }
{
    Said {
        answer,
        raised,
        shows: Mark::Blank,
        core,
        code: Mark::Kept,
    }
}

// An answer with the phone access signals.
#[tactic(auto, unfolding(crate::specs::Replies::notified, crate::specs::Replies::reply))]
pub fn notified(core: Core, answer: Answer) -> Said
    ensures { result ≡ Replies.notified core answer }
{
    reply(core, answer, phone_access_changed())
}

// The running session ended: its digits go.
#[tactic(auto, unfolding(crate::specs::Replies::finish))]
pub fn finish(core: Core, answer: Answer, raised: Raised) -> Said
    ensures { result ≡ Replies.finish core answer raised }
{
    Said {
        answer,
        raised,
        shows: Mark::Blank,
        core,
        code: Mark::Blank,
    }
}

pub fn code_at(held: [u8; 9], drawn: [u8; 9], mark: Mark) -> [u8; 9]
    ensures { result ≡ code_at held drawn mark }
{
    match mark {
        Mark::Blank => [0u8; 9],
        Mark::Kept => held,
        Mark::Fresh => drawn,
    }
}

// The challenge with its digits. They are set in place: after a struct update a start takes twice as long (docs/LOOK-BACK.md).
pub fn showing(digits: [u8; 9], mut raised: Raised) -> Raised
    ensures { result ≡ Replies.showing digits raised }
{
    raised.challenge.challenge.code = digits;
    raised
}
