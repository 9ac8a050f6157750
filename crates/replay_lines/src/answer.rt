// Answers, with the numbers and names of documents 01 and 02.
ghost use Rattle.std.specs.Prelude.{◌≡◌};
ghost use Rattle.replay_page.specs.Page.{page};
ghost use Rattle.replay_lines.specs.Table.{word_text, is_bad_settings};
ghost use Rattle.replay_lines.specs.Answer.{name_of, held_by, is_out_of_range, kind_name, status_name, reply, behind, answer};

use crate::fields::{Field, put_field, put_fields};
use crate::key::Key;
use crate::word::Word;
use state::{Answer, Kind, SessionReply, Status};

// What an answer holds. A part of a save: how many bytes, and whether they are the last.
#[derive(Clone, Copy)]
pub enum Held {
    Fine,
    Blank,
    Item(Key, u64),
    Part(u64, bool),
    Reply(SessionReply),
    Wrong(SessionReply),
}

// An answer's name, and what it holds.
#[derive(Clone, Copy)]
pub struct Shown(pub Word, pub Held);

pub fn shown_by(a: Answer) -> Shown
    ensures { (word_text result.0 ≡ name_of a) × (result.1 ≡ held_by a) × (is_bad_settings result.0 ≡ is_out_of_range a) }
{
    match a {
        Answer::Done => Shown(Word::Ok, Held::Fine),
        Answer::Yes => Shown(Word::Yes, Held::Blank),
        Answer::No => Shown(Word::No, Held::Blank),
        Answer::Nothing => Shown(Word::None, Held::Blank),
        Answer::Count(n) => Shown(Word::Ok, Held::Item(Key::Count, n as u64)),
        Answer::Number(n) => Shown(Word::Ok, Held::Item(Key::Number, n as u64)),
        Answer::Reason(n) => Shown(Word::Ok, Held::Item(Key::Reason, n as u64)),
        Answer::Session(s) => Shown(Word::Ok, Held::Reply(s)),
        Answer::Taken(n, end) => Shown(Word::Ok, Held::Part(n as u64, end)),
        Answer::UnknownMethod => Shown(Word::UnknownMethod, Held::Blank),
        Answer::CarNotIdentified => Shown(Word::CarNotIdentified, Held::Blank),
        Answer::CoolingDown(n) => Shown(Word::CoolingDown, Held::Item(Key::Seconds, n as u64)),
        Answer::OtherPhoneSession => Shown(Word::OtherPhoneSession, Held::Blank),
        Answer::MethodUnavailable => Shown(Word::MethodUnavailable, Held::Blank),
        Answer::MethodNotAvailableNow => Shown(Word::MethodNotAvailableNow, Held::Blank),
        Answer::NoRandomSource => Shown(Word::NoRandomSource, Held::Blank),
        Answer::NoSession => Shown(Word::NoSession, Held::Blank),
        Answer::NotCodeEntry => Shown(Word::NotCodeEntry, Held::Blank),
        Answer::WrongCode(s) => Shown(Word::WrongCode, Held::Wrong(s)),
        Answer::NoDevLock => Shown(Word::NoDevLock, Held::Blank),
        Answer::NotNeeded => Shown(Word::NotNeeded, Held::Blank),
        Answer::Logging => Shown(Word::Logging, Held::Blank),
        Answer::BusAsleep => Shown(Word::BusAsleep, Held::Blank),
        Answer::Busy => Shown(Word::Busy, Held::Blank),
        Answer::NoAttemptsLeft => Shown(Word::NoAttemptsLeft, Held::Blank),
        Answer::Invalid => Shown(Word::Invalid, Held::Blank),
        Answer::IdTooLong => Shown(Word::IdTooLong, Held::Blank),
        Answer::RandomSpent => Shown(Word::RandomSpent, Held::Blank),
        Answer::NotText => Shown(Word::NotText, Held::Blank),
        Answer::ListFull => Shown(Word::ListFull, Held::Blank),
        Answer::Malformed => Shown(Word::Malformed, Held::Blank),
        Answer::TooLarge => Shown(Word::TooLarge, Held::Blank),
        Answer::BadFrame => Shown(Word::BadFrame, Held::Blank),
        Answer::BadSettings => Shown(Word::BadSettings, Held::Blank),
        Answer::BadBus => Shown(Word::BadBus, Held::Blank),
        Answer::QueueFull => Shown(Word::QueueFull, Held::Blank),
        Answer::CarTwice => Shown(Word::CarTwice, Held::Blank),
        Answer::NoSave => Shown(Word::NoSave, Held::Blank),
    }
}

pub fn is_out_of_range(a: Answer) -> bool
    ensures { result ≡ is_out_of_range a }
{
    let Shown(word, _) = shown_by(a);
    matches!(word, Word::BadSettings)
}

pub fn kind_word(k: Kind) -> Word
    ensures { word_text result ≡ kind_name k }
{
    match k {
        Kind::CodeEntry => Word::Code,
        Kind::InCarAction => Word::Action,
    }
}

pub fn status_word(s: Status) -> Word
    ensures { word_text result ≡ status_name s }
{
    match s {
        Status::InProgress => Word::InProgress,
        Status::Succeeded => Word::Succeeded,
        Status::Failed => Word::Failed,
        Status::Cancelled => Word::Cancelled,
        Status::TimedOut => Word::TimedOut,
    }
}

// The session reply.
pub fn put_reply(out: &mut [u8], at: usize, s: SessionReply) -> usize
    ensures { page out.new result ≡ reply s (page out.old at) }
{
    let fields = [
        Field::Number(Key::Method, s.method as u64),
        Field::Word(Key::Kind, kind_word(s.kind)),
        Field::Word(Key::Status, status_word(s.status)),
        Field::Number(Key::Digits, s.length as u64),
        Field::Number(Key::Tries, s.tries as u64),
        Field::Number(Key::Seconds, s.seconds as u64),
        Field::Number(Key::Cooldown, s.cooldown as u64),
    ];
    put_fields(out, at, b"", &fields)
}

// What stands behind an answer's name.
fn put_held(out: &mut [u8], at: usize, h: Held) -> usize
    ensures { page out.new result ≡ behind h (page out.old at) }
{
    match h {
        Held::Fine | Held::Blank => at,
        Held::Item(k, n) => put_field(out, at, b"", Field::Number(k, n)),
        Held::Part(n, end) => {
            let k = put_field(out, at, b"", Field::Number(Key::Taken, n));
            put_field(out, k, b"", Field::Flag(Key::End, end))
        }
        Held::Reply(s) | Held::Wrong(s) => put_reply(out, at, s),
    }
}

// The answer, with its values.
pub fn put_answer(out: &mut [u8], at: usize, a: Answer) -> usize
    ensures { page out.new result ≡ answer a (page out.old at) }
{
    let Shown(word, held) = shown_by(a);
    let k = put_field(out, at, b"", Field::Word(Key::Answer, word));
    put_held(out, k, held)
}
