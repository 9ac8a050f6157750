// What the longer answers of the queries hold, on a gate in range, and what they hold under 25.
#![tactic(auto)]

ghost use Rattle.std.specs.Prelude.{◌≡◌, false, [], length, take};
ghost use Rattle.arrays.specs.Arrays.{padded};
ghost use Rattle.state.specs.View.{lists_in};
ghost use Rattle.state.specs.declared.Answer.TheVariants.{BadSettings};
ghost use Rattle.answers.specs.Answers.{access_state_of, no_access_state, no_peer, peer_of, is_shown, session_shown, no_access, phone_access_of, can_start, can_start_from, methods_of, methods_now, shown_digits, challenge_of, no_challenge_now, challenge_now};

use answers::{AccessAnswer, ChallengeAnswer, MethodsAnswer, PeerAnswer, PhoneAccessAnswer};
use phone_trust::Trust;
use phones::ShortId;
use policy::Approval;
use state::{Answer, Challenge, Core, Method, Methods, Phones, Policy};

pub fn access_of(policy: Policy) -> AccessAnswer
    ensures { result ≡ access_state_of policy }
{
    AccessAnswer {
        answer: Answer::Done,
        platform: policy.identity.confirmed,
        car: policy::is_car_fingerprint_confirmed(policy.identity),
        approval: policy::can_read_write_approval(policy.identity, policy.access),
        devlock: policy::has_can_dev_write_lock(policy.access),
        unlocked: policy::is_can_dev_write_unlocked(policy.access),
        logging: policy.buses.logging,
        readonly: policy::is_can_read_only(policy),
    }
}

pub fn no_access_state() -> AccessAnswer
    ensures { result ≡ no_access_state }
{
    AccessAnswer {
        answer: Answer::BadSettings,
        platform: false,
        car: false,
        approval: Approval::NotApproved,
        devlock: false,
        unlocked: false,
        logging: false,
        readonly: true,
    }
}

#[tactic(auto, unfolding(phones::specs::Phones::id_of, arrays::specs::Arrays::padded))]
pub fn no_peer(answer: Answer) -> PeerAnswer
    ensures { result ≡ no_peer answer }
{
    PeerAnswer {
        answer,
        peer: ShortId {
            bytes: [0; 32],
            len: 0,
        },
        validated: false,
    }
}

pub fn peer_of(core: Core, phones: Phones) -> PeerAnswer
    ensures { result ≡ peer_of core (lists_in phones) }
{
    let peer = core.peer;
    if peer.len == 0 {
        return no_peer(Answer::Nothing);
    }
    PeerAnswer {
        answer: Answer::Done,
        peer: phones::clean(peer),
        validated: phone_trust::is_phone_validated(core.policy.identity, phones, peer.used()),
    }
}

// The session is this phone's, and it runs or ended less than the result-keep ago.
#[tactic(auto, unfolding(answers::specs::Answers::is_shown))]
fn is_shown(core: Core, phone: &[u8], clock: u64) -> bool
    ensures { result ≡ is_shown core phone.now clock }
{
    let s = core.validation.session;
    s.present
        && session::is_of(s, phone)
        && (state::running::is_running(s.status)
            || clock.saturating_sub(s.ended) < core.settings.keep)
}

#[tactic(auto, unfolding(answers::specs::Answers::session_shown))]
pub fn session_shown(core: Core, phone: &[u8], clock: u64) -> Answer
    ensures { result ≡ session_shown core phone.now clock }
{
    if is_shown(core, phone, clock) {
        Answer::Session(session::reply_of(core, core.validation.session, clock))
    } else {
        Answer::Nothing
    }
}

pub fn no_access(answer: Answer) -> PhoneAccessAnswer
    ensures { result ≡ no_access answer }
{
    PhoneAccessAnswer {
        answer,
        trust: Trust::NotBonded,
        car_has_validated: false,
        session: Answer::Nothing,
    }
}

pub fn phone_access_of(core: Core, phones: Phones, clock: u64) -> PhoneAccessAnswer
    ensures { result ≡ phone_access_of core (lists_in phones) clock }
{
    let peer = core.peer;
    if peer.len == 0 {
        return no_access(Answer::Nothing);
    }
    let identity = core.policy.identity;
    PhoneAccessAnswer {
        answer: Answer::Done,
        trust: phone_trust::phone_trust_level(identity, phones, peer.used()),
        car_has_validated: phone_trust::car_has_validated_phone(identity, phones),
        session: session_shown(core, peer.used(), clock),
    }
}

// is_method_available.
#[tactic(auto, unfolding(answers::specs::Answers::can_start))]
fn can_start(core: Core, at: usize, m: Method) -> bool
    ensures { result ≡ can_start core at m }
{
    policy::is_car_fingerprint_confirmed(core.policy.identity)
        && !session::lost_read_write(core, m)
        && session::note_at(core.methods.available, at)
}

// Of each method in use, whether it can start now.
fn can_start_each(core: Core, list: [Method; 8], count: usize) -> [bool; 8]
    ensures { result ≡ padded 8 false (can_start_from core 0 (take count list)) }
{
    let mut out = [false; 8];
    for i in 0..count.min(8) {
        out[i] = can_start(core, i, list[i]);
    }
    out
}

#[tactic(auto, unfolding(arrays::specs::Arrays::padded))]
pub fn no_methods() -> MethodsAnswer
    ensures { result ≡ methods_of BadSettings [] [] }
{
    MethodsAnswer {
        answer: Answer::BadSettings,
        list: [state::running::no_method(); 8],
        available: [false; 8],
        count: 0,
    }
}

// How many methods are in use.
fn count_used(m: Methods) -> usize
    ensures { result ≡ length (take m.count m.list) }
{
    m.count.min(8)
}

pub fn methods_of(core: Core) -> MethodsAnswer
    ensures { result ≡ methods_now core }
{
    let Methods { list, count, .. } = core.methods;
    MethodsAnswer {
        answer: Answer::Done,
        list: new_gate::used_methods(list, count),
        available: can_start_each(core, list, count),
        count: count_used(core.methods),
    }
}

pub fn no_challenge(answer: Answer) -> ChallengeAnswer
    ensures { result ≡ no_challenge_now answer }
{
    ChallengeAnswer {
        answer,
        challenge: state::replies::no_challenge(),
    }
}

// The first n digits, zeros past them.
#[tactic(auto, unfolding(answers::specs::Answers::shown_digits, arrays::specs::Arrays::padded))]
fn first_digits(held: [u8; 9], n: usize) -> [u8; 9]
    ensures { result ≡ shown_digits held n }
{
    let shown = n.min(9);
    let mut code = [0; 9];
    code[..shown].copy_from_slice(&held[..shown]);
    code
}

#[tactic(auto, unfolding(answers::specs::Answers::challenge_of))]
fn challenge_of(core: Core, held: [u8; 9]) -> Challenge
    ensures { result ≡ challenge_of core held }
{
    let s = core.validation.session;
    let length = if state::running::code_in_progress(core.methods, s) {
        core.settings.digits
    } else {
        0
    };
    Challenge {
        running: true,
        session: s.number,
        method: s.method,
        length,
        code: first_digits(held, length),
    }
}

// `held` are the digits of the gate.
pub fn challenge_now(core: Core, held: [u8; 9]) -> ChallengeAnswer
    ensures { result ≡ challenge_now core held }
{
    if state::running::in_progress(core.validation.session) {
        ChallengeAnswer {
            answer: Answer::Done,
            challenge: challenge_of(core, held),
        }
    } else {
        no_challenge(Answer::Nothing)
    }
}
