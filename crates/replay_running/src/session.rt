// The session of a gate.
ghost use Rattle.std.specs.Prelude.{◌≡◌};
ghost use Rattle.replay_page.specs.Page.{page};
ghost use Rattle.replay_running.specs.Session.{code, whose, stands, session_or_none};

use replay_lines::fields::{Field, put_field, put_fields};
use replay_lines::key::Key;
use replay_lines::word::Word;
use state::{Gate, Methods, Session};

// The code is kept while a code entry session is in progress.
fn put_code(out: &mut [u8], at: usize, m: Methods, s: Session, digits: [u8; 9], n: usize) -> usize
    ensures { page out.new result ≡ code m s digits n (page out.old at) }
{
    let kept = if state::running::code_in_progress(m, s) {
        n
    } else {
        0
    };
    put_field(out, at, &digits, Field::Digits(Key::Code, kept))
}

fn put_whose(out: &mut [u8], at: usize, s: Session) -> usize
    ensures { page out.new result ≡ whose s (page out.old at) }
{
    let fields = [
        Field::Number(Key::Session, s.number as u64),
        Field::Bytes(Key::Phone, s.phone.len),
        Field::Number(Key::Method, s.method as u64),
    ];
    put_fields(out, at, &s.phone.bytes, &fields)
}

fn put_stands(out: &mut [u8], at: usize, s: Session) -> usize
    ensures { page out.new result ≡ stands s (page out.old at) }
{
    let fields = [
        Field::Known(Key::SessionCar, true),
        Field::Word(Key::Status, replay_lines::answer::status_word(s.status)),
        Field::Number(Key::Deadline, s.deadline),
        Field::Number(Key::EndedAt, s.ended),
    ];
    put_fields(out, at, &s.car, &fields)
}

pub fn put_session_or_none(out: &mut [u8], at: usize, g: Gate) -> usize
    ensures { page out.new result ≡ session_or_none g (page out.old at) }
{
    let s = g.core.validation.session;
    if !s.present {
        return put_field(out, at, b"", Field::Word(Key::Session, Word::None));
    }
    let k = put_whose(out, at, s);
    let k = put_stands(out, k, s);
    put_code(out, k, g.core.methods, s, g.code, g.core.settings.digits)
}
