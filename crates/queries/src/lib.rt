// What the gate tells: one function for each query. A query changes nothing, raises nothing, and gets 25 first. Each promise
// is an equation with `step` of the gate's definition.
#![tactic(auto)]

ghost use Rattle.std.specs.Prelude.{◌≡◌};
ghost use Rattle.state.specs.Replies.{yes_no};
ghost use Rattle.state.specs.View.{view};
ghost use Rattle.answers.specs.Answers as Answers;
ghost use Rattle.answers.specs.Query.{plain, approval, access, phones, trust, peer, phone_access, methods, challenge, saved};
ghost use Rattle.answers.specs.Query.{is_can_read_only, can_read_only_reason, is_car_identity_confirmed, is_car_fingerprint_confirmed, can_read_write_approval, has_can_dev_write_lock, is_can_dev_write_unlocked, can_access_state, platform_id, is_can_logging, is_can_fd_bus, is_can_bus_read_only, is_can_bus_listen_only, is_phone_paired, paired_phone_count, list_paired_phones, ble_max_bonded_phones, is_phone_validated, car_has_validated_phone, phone_trust_level, ble_peer, encode_phone_validations, phone_access_state, validation_methods, session_for, current_validation_challenge};
ghost use Rattle.definition.specs.Gate.{ask, answered, step};

use answers::{
    AccessAnswer, ApprovalAnswer, ChallengeAnswer, MethodsAnswer, PeerAnswer, PhoneAccessAnswer,
    PhonesAnswer, RecordAnswer, TrustAnswer,
};
use phone_trust::Trust;
use policy::Approval;
use state::{Answer, Gate};

// Yes or no, or 25.
fn answer_yes_no(g: Gate, b: bool) -> Answer
    ensures { result ≡ Answers.if_in_range (view g) (yes_no b) }
{
    if range::in_range(g) {
        state::replies::yes_no(b)
    } else {
        Answer::BadSettings
    }
}

// ---- the policy

pub fn is_can_read_only(g: Gate) -> Answer
    ensures { answered g (plain result) ≡ step g (ask is_can_read_only) }
{
    answer_yes_no(g, policy::is_can_read_only(g.core.policy))
}

// 1 to 7, or 0 for none.
pub fn can_read_only_reason(g: Gate) -> Answer
    ensures { answered g (plain result) ≡ step g (ask can_read_only_reason) }
{
    if range::in_range(g) {
        Answer::Reason(policy::can_read_only_reason(g.core.policy))
    } else {
        Answer::BadSettings
    }
}

pub fn is_car_identity_confirmed(g: Gate) -> Answer
    ensures { answered g (plain result) ≡ step g (ask is_car_identity_confirmed) }
{
    answer_yes_no(g, g.core.policy.identity.confirmed)
}

pub fn is_car_fingerprint_confirmed(g: Gate) -> Answer
    ensures { answered g (plain result) ≡ step g (ask is_car_fingerprint_confirmed) }
{
    answer_yes_no(
        g,
        policy::is_car_fingerprint_confirmed(g.core.policy.identity),
    )
}

pub fn can_read_write_approval(g: Gate) -> ApprovalAnswer
    ensures { answered g (approval result) ≡ step g (ask can_read_write_approval) }
{
    if range::in_range(g) {
        ApprovalAnswer {
            answer: Answer::Done,
            approval: policy::can_read_write_approval(g.core.policy.identity, g.core.policy.access),
        }
    } else {
        ApprovalAnswer {
            answer: Answer::BadSettings,
            approval: Approval::NotApproved,
        }
    }
}

pub fn has_can_dev_write_lock(g: Gate) -> Answer
    ensures { answered g (plain result) ≡ step g (ask has_can_dev_write_lock) }
{
    answer_yes_no(g, policy::has_can_dev_write_lock(g.core.policy.access))
}

pub fn is_can_dev_write_unlocked(g: Gate) -> Answer
    ensures { answered g (plain result) ≡ step g (ask is_can_dev_write_unlocked) }
{
    answer_yes_no(g, policy::is_can_dev_write_unlocked(g.core.policy.access))
}

pub fn can_access_state(g: Gate) -> AccessAnswer
    ensures { answered g (access result) ≡ step g (ask can_access_state) }
{
    if range::in_range(g) {
        long_answers::access_of(g.core.policy)
    } else {
        long_answers::no_access_state()
    }
}

pub fn platform_id(g: Gate) -> Answer
    ensures { answered g (plain result) ≡ step g (ask platform_id) }
{
    if range::in_range(g) {
        Answer::Number(g.core.policy.identity.platform)
    } else {
        Answer::BadSettings
    }
}

pub fn is_can_logging(g: Gate) -> Answer
    ensures { answered g (plain result) ≡ step g (ask is_can_logging) }
{
    answer_yes_no(g, g.core.policy.buses.logging)
}

pub fn is_can_fd_bus(g: Gate, bus: u8) -> Answer
    ensures { answered g (plain result) ≡ step g (ask (is_can_fd_bus bus)) }
{
    answer_yes_no(g, policy::is_can_fd_bus(g.core.policy.buses, bus))
}

pub fn is_can_bus_read_only(g: Gate, bus: u8) -> Answer
    ensures { answered g (plain result) ≡ step g (ask (is_can_bus_read_only bus)) }
{
    answer_yes_no(g, policy::is_can_bus_read_only(g.core.policy, bus))
}

pub fn is_can_bus_listen_only(g: Gate, bus: u8, clock: u64) -> Answer
    ensures { answered g (plain result) ≡ step g (ask (is_can_bus_listen_only bus clock)) }
{
    answer_yes_no(
        g,
        probe_window::is_can_bus_listen_only(g.core.policy, g.core.probe, bus, clock),
    )
}

// ---- phones

pub fn is_phone_paired(g: Gate, id: &[u8]) -> Answer
    ensures { answered g (plain result) ≡ step g (ask (is_phone_paired id.now)) }
{
    answer_yes_no(g, phone_trust::is_paired(g.phones, id))
}

pub fn paired_phone_count(g: Gate) -> Answer
    ensures { answered g (plain result) ≡ step g (ask paired_phone_count) }
{
    if range::in_range(g) {
        Answer::Count(phones::count(g.phones.paired))
    } else {
        Answer::BadSettings
    }
}

pub fn list_paired_phones(g: Gate) -> PhonesAnswer
    ensures { answered g (phones result.answer result.phones) ≡ step g (ask list_paired_phones) }
{
    if range::in_range(g) {
        PhonesAnswer {
            answer: Answer::Done,
            phones: phones::canonical(g.phones.paired),
        }
    } else {
        PhonesAnswer {
            answer: Answer::BadSettings,
            phones: phones::empty_list(),
        }
    }
}

pub fn ble_max_bonded_phones(g: Gate) -> Answer
    ensures { answered g (plain result) ≡ step g (ask ble_max_bonded_phones) }
{
    if range::in_range(g) {
        Answer::Count(g.core.settings.bonded)
    } else {
        Answer::BadSettings
    }
}

pub fn is_phone_validated(g: Gate, id: &[u8]) -> Answer
    ensures { answered g (plain result) ≡ step g (ask (is_phone_validated id.now)) }
{
    answer_yes_no(
        g,
        phone_trust::is_phone_validated(g.core.policy.identity, g.phones, id),
    )
}

pub fn car_has_validated_phone(g: Gate) -> Answer
    ensures { answered g (plain result) ≡ step g (ask car_has_validated_phone) }
{
    answer_yes_no(
        g,
        phone_trust::car_has_validated_phone(g.core.policy.identity, g.phones),
    )
}

pub fn phone_trust_level(g: Gate, id: &[u8]) -> TrustAnswer
    ensures { answered g (trust result) ≡ step g (ask (phone_trust_level id.now)) }
{
    if range::in_range(g) {
        TrustAnswer {
            answer: Answer::Done,
            trust: phone_trust::phone_trust_level(g.core.policy.identity, g.phones, id),
        }
    } else {
        TrustAnswer {
            answer: Answer::BadSettings,
            trust: Trust::NotBonded,
        }
    }
}

// The connected phone, if any, and whether it is validated.
pub fn ble_peer(g: Gate) -> PeerAnswer
    ensures { answered g (peer result) ≡ step g (ask ble_peer) }
{
    if range::in_range(g) {
        long_answers::peer_of(g.core, g.phones)
    } else {
        long_answers::no_peer(Answer::BadSettings)
    }
}

pub fn encode_phone_validations(g: Gate) -> RecordAnswer
    ensures { answered g (saved result) ≡ step g (ask encode_phone_validations) }
{
    if range::in_range(g) {
        RecordAnswer {
            answer: Answer::Done,
            stored: validations::record_for(g.phones.store),
        }
    } else {
        RecordAnswer {
            answer: Answer::BadSettings,
            stored: saved_record::no_record(),
        }
    }
}

// ---- sessions and methods

pub fn phone_access_state(g: Gate, clock: u64) -> PhoneAccessAnswer
    ensures { answered g (phone_access result) ≡ step g (ask (phone_access_state clock)) }
{
    if range::in_range(g) {
        long_answers::phone_access_of(g.core, g.phones, clock)
    } else {
        long_answers::no_access(Answer::BadSettings)
    }
}

pub fn validation_methods(g: Gate) -> MethodsAnswer
    ensures { answered g (methods result) ≡ step g (ask validation_methods) }
{
    if range::in_range(g) {
        long_answers::methods_of(g.core)
    } else {
        long_answers::no_methods()
    }
}

pub fn session_for(g: Gate, phone: &[u8], clock: u64) -> Answer
    ensures { answered g (plain result) ≡ step g (ask (session_for phone.now clock)) }
{
    if range::in_range(g) {
        long_answers::session_shown(g.core, phone, clock)
    } else {
        Answer::BadSettings
    }
}

// The only query that shows the digits.
pub fn current_validation_challenge(g: Gate) -> ChallengeAnswer
    ensures { answered g (challenge result) ≡ step g (ask current_validation_challenge) }
{
    if range::in_range(g) {
        long_answers::challenge_now(g.core, g.code)
    } else {
        long_answers::no_challenge(Answer::BadSettings)
    }
}
