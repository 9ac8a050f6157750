// The answers of queries that hold more than an answer. Nothing stands behind a refusal or none, but for previews.
#![tactic(auto, unfolding(replay_lines::specs::Fields::put_fields, replay_page::specs::Page::item, replay_page::specs::Page::flag, replay_page::specs::Page::word, replay_page::specs::Page::known, phones::specs::Phones::id_bytes, crate::specs::Query::told, crate::specs::Query::approval, crate::specs::Query::access, crate::specs::Query::phones_listed, crate::specs::Query::trust, crate::specs::Query::peer, crate::specs::Query::phone_access, crate::specs::Query::method_at, crate::specs::Query::methods, crate::specs::Query::challenge, crate::specs::Query::encoded, crate::specs::Query::preview))]

ghost use Rattle.std.specs.Prelude.{◌≡◌, ◌<◌};
ghost use Rattle.replay_page.specs.Page.{page};
ghost use Rattle.replay_lines.specs.Table.{word_text};
ghost use Rattle.replay_lines.specs.Fields.{put_fields};
ghost use Rattle.replay_answers.specs.Query.{is_done, approval_name, trust_name, told, approval, access, phones_listed, trust, peer, seen, shown, phone_access, method_at, methods_to, methods, challenge, encoded, preview};

use answers::{
    AccessAnswer, ApprovalAnswer, ChallengeAnswer, MethodsAnswer, PeerAnswer, PhoneAccessAnswer,
    PhonesAnswer, PreviewAnswer, RecordAnswer, TrustAnswer,
};
use phone_trust::Trust;
use policy::Approval;
use replay_lines::answer::{Held, Shown, is_out_of_range, put_answer, put_reply, shown_by};
use replay_lines::fields::{Field, put_field, put_fields};
use replay_lines::key::Key;
use replay_lines::word::Word;
use state::{Answer, SessionReply};

pub fn is_done(a: Answer) -> bool
    ensures { result ≡ is_done a }
{
    let Shown(_, held) = shown_by(a);
    matches!(held, Held::Fine)
}

fn approval_word(a: Approval) -> Word
    ensures { word_text result ≡ approval_name a }
{
    match a {
        Approval::NotApproved => Word::NotApproved,
        Approval::AwaitingCar => Word::AwaitingCar,
        Approval::Approved => Word::Approved,
        Approval::OtherCar => Word::OtherCar,
    }
}

fn trust_word(t: Trust) -> Word
    ensures { word_text result ≡ trust_name t }
{
    match t {
        Trust::NotBonded => Word::NotBonded,
        Trust::Bonded => Word::Bonded,
        Trust::Validated => Word::Validated,
    }
}

// The answer, and the fields behind it if it is Done.
pub fn put_told(out: &mut [u8], at: usize, a: Answer, lent: &[u8], fields: &[Field]) -> usize
    ensures { page out.new result ≡ told a (put_fields lent.now fields.now) (page out.old at) }
{
    let k = put_answer(out, at, a);
    if is_done(a) {
        put_fields(out, k, lent, fields)
    } else {
        k
    }
}

pub fn put_approval(out: &mut [u8], at: usize, a: ApprovalAnswer) -> usize
    ensures { page out.new result ≡ approval a (page out.old at) }
{
    let fields = [Field::Word(Key::Approval, approval_word(a.approval))];
    put_told(out, at, a.answer, b"", &fields)
}

pub fn put_access(out: &mut [u8], at: usize, a: AccessAnswer) -> usize
    ensures { page out.new result ≡ access a (page out.old at) }
{
    let fields = [
        Field::Flag(Key::Platform, a.platform),
        Field::Flag(Key::Car, a.car),
        Field::Word(Key::Approval, approval_word(a.approval)),
        Field::Flag(Key::DevLock, a.devlock),
        Field::Flag(Key::DevUnlocked, a.unlocked),
        Field::Flag(Key::Logging, a.logging),
        Field::Flag(Key::ReadOnly, a.readonly),
    ];
    put_told(out, at, a.answer, b"", &fields)
}

pub fn put_phones_listed(out: &mut [u8], at: usize, a: PhonesAnswer) -> usize
    ensures { page out.new result ≡ phones_listed a (page out.old at) }
{
    let fields = [
        Field::Number(Key::Count, phones::count(a.phones) as u64),
        Field::Key(Key::Phones),
    ];
    let k = put_told(out, at, a.answer, b"", &fields);
    if is_done(a.answer) {
        replay_lines::parts::put_phones(out, k, a.phones)
    } else {
        k
    }
}

pub fn put_trust(out: &mut [u8], at: usize, a: TrustAnswer) -> usize
    ensures { page out.new result ≡ trust a (page out.old at) }
{
    let fields = [Field::Word(Key::Trust, trust_word(a.trust))];
    put_told(out, at, a.answer, b"", &fields)
}

pub fn put_peer(out: &mut [u8], at: usize, a: PeerAnswer) -> usize
    ensures { page out.new result ≡ peer a (page out.old at) }
{
    let fields = [
        Field::Bytes(Key::Peer, a.peer.len),
        Field::Flag(Key::Validated, a.validated),
    ];
    put_told(out, at, a.answer, &a.peer.bytes, &fields)
}

// The session of a phone, or none.
fn seen_in(a: Answer) -> Option<SessionReply>
    ensures { result ≡ seen a }
{
    let Shown(_, held) = shown_by(a);
    match held {
        Held::Reply(r) => Some(r),
        _ => None,
    }
}

fn put_seen(out: &mut [u8], at: usize, s: Option<SessionReply>) -> usize
    ensures { page out.new result ≡ shown s (page out.old at) }
{
    match s {
        None => put_field(out, at, b"", Field::Word(Key::Session, Word::None)),
        Some(r) => put_reply(out, at, r),
    }
}

pub fn put_phone_access(out: &mut [u8], at: usize, a: PhoneAccessAnswer) -> usize
    ensures { page out.new result ≡ phone_access a (page out.old at) }
{
    let fields = [
        Field::Word(Key::Trust, trust_word(a.trust)),
        Field::Flag(Key::CarHasValidated, a.car_has_validated),
    ];
    let k = put_told(out, at, a.answer, b"", &fields);
    if is_done(a.answer) {
        put_seen(out, k, seen_in(a.session))
    } else {
        k
    }
}

// The method at a place, if there is one.
fn put_method_at(out: &mut [u8], at: usize, a: MethodsAnswer, i: usize) -> usize
    requires { i < 8 }
    ensures { page out.new result ≡ method_at a i (page out.old at) }
{
    if i < a.count {
        let k = replay_page::put_comma(out, at, i);
        let k = replay_lines::parts::put_method(out, k, a.list[i]);
        replay_page::put_flag(out, k, b"/", a.available[i])
    } else {
        at
    }
}

fn put_method_list(out: &mut [u8], at: usize, a: MethodsAnswer) -> usize
    ensures { page out.new result ≡ methods_to a 8 (page out.old at) }
{
    let mut k = at;
    for i in 0..8 {
        k = put_method_at(out, k, a, i);
    }
    k
}

pub fn put_methods(out: &mut [u8], at: usize, a: MethodsAnswer) -> usize
    ensures { page out.new result ≡ methods a (page out.old at) }
{
    let fields = [
        Field::Number(Key::Count, a.count as u64),
        Field::Key(Key::Methods),
    ];
    let k = put_told(out, at, a.answer, b"", &fields);
    if is_done(a.answer) {
        put_method_list(out, k, a)
    } else {
        k
    }
}

pub fn put_challenge(out: &mut [u8], at: usize, a: ChallengeAnswer) -> usize
    ensures { page out.new result ≡ challenge a (page out.old at) }
{
    let fields = [
        Field::Number(Key::Session, a.challenge.session as u64),
        Field::Number(Key::Method, a.challenge.method as u64),
        Field::Digits(Key::Code, a.challenge.length),
    ];
    put_told(out, at, a.answer, &a.challenge.code, &fields)
}

pub fn put_encoded(out: &mut [u8], at: usize, a: RecordAnswer) -> usize
    ensures { page out.new result ≡ encoded a (page out.old at) }
{
    let fields = [Field::Bytes(Key::Record, a.stored.len)];
    put_told(out, at, a.answer, &a.stored.bytes, &fields)
}

// Behind every answer but 25: what would be left.
pub fn put_preview(out: &mut [u8], at: usize, a: PreviewAnswer) -> usize
    ensures { page out.new result ≡ preview a (page out.old at) }
{
    let k = put_answer(out, at, a.answer);
    if is_out_of_range(a.answer) {
        return k;
    }
    let k = replay_cars::put_lists(out, k, a.paired, a.store);
    put_field(out, k, b"", Field::Number(Key::RecordBytes, a.bytes as u64))
}
