// The whole state of a gate.
#![tactic(auto, unfolding(replay_lines::specs::Fields::put_fields, replay_page::specs::Page::item, replay_page::specs::Page::flag, replay_page::specs::Page::word, replay_page::specs::Page::known, phones::specs::Phones::id_bytes, crate::specs::Whole::settings, crate::specs::Whole::method_at, crate::specs::Whole::identity, crate::specs::Whole::access, crate::specs::Whole::buses, crate::specs::Whole::policy, crate::specs::Whole::peer, crate::specs::Whole::front, crate::specs::Whole::save, crate::specs::Whole::queue, crate::specs::Whole::gate))]

ghost use Rattle.std.specs.Prelude.{◌≡◌, ◌<◌};
ghost use Rattle.replay_page.specs.Page.{page};
ghost use Rattle.replay_state.specs.Whole.{settings, method_at, methods_to, identity, access, buses, policy, peer, front, save, queue, gate};

use phones::ShortId;
use replay_lines::fields::{Field, put_field, put_fields};
use replay_lines::key::Key;
use replay_lines::word::Word;
use state::{Access, Buses, Core, Gate, Identity, Methods, Phones, Policy, Queue, Save, Settings};

fn put_settings(out: &mut [u8], at: usize, s: Settings) -> usize
    ensures { page out.new result ≡ settings s (page out.old at) }
{
    let fields = [
        Field::Number(Key::Digits, s.digits as u64),
        Field::Number(Key::Tries, s.tries as u64),
        Field::Number(Key::SessionMs, s.session),
        Field::Number(Key::CooldownMs, s.cooldown),
        Field::Number(Key::KeepMs, s.keep),
        Field::Number(Key::Bonded, s.bonded as u64),
        Field::Key(Key::Methods),
    ];
    put_fields(out, at, b"", &fields)
}

// The method at a place, if there is one.
fn put_method_at(out: &mut [u8], at: usize, m: Methods, i: usize) -> usize
    requires { i < 8 }
    ensures { page out.new result ≡ method_at m i (page out.old at) }
{
    if i < m.count {
        let k = replay_page::put_comma(out, at, i);
        let k = replay_lines::parts::put_method(out, k, m.list[i]);
        let k = replay_page::put_flag(out, k, b"/", m.available[i]);
        replay_page::put_flag(out, k, b"/", m.continues[i])
    } else {
        at
    }
}

fn put_method_list(out: &mut [u8], at: usize, m: Methods) -> usize
    ensures { page out.new result ≡ methods_to m 8 (page out.old at) }
{
    let mut k = at;
    for i in 0..8 {
        k = put_method_at(out, k, m, i);
    }
    k
}

fn put_identity(out: &mut [u8], at: usize, i: Identity) -> usize
    ensures { page out.new result ≡ identity i (page out.old at) }
{
    let fields = [
        Field::Number(Key::PlatformNumber, i.platform as u64),
        Field::Flag(Key::PlatformConfirmed, i.confirmed),
        Field::Known(Key::Car, i.car.known),
    ];
    put_fields(out, at, &i.car.digest, &fields)
}

fn put_access(out: &mut [u8], at: usize, a: Access) -> usize
    ensures { page out.new result ≡ access a (page out.old at) }
{
    let fields = [
        Field::Known(Key::Approval, a.approval.known),
        Field::Flag(Key::DevUnlocked, a.unlocked),
        Field::Flag(Key::Production, a.production),
    ];
    put_fields(out, at, &a.approval.digest, &fields)
}

fn put_buses(out: &mut [u8], at: usize, b: Buses) -> usize
    ensures { page out.new result ≡ buses b (page out.old at) }
{
    let fields = [
        Field::Flag(Key::VehicleReadOnly, b.vehicle_read_only),
        Field::Flag(Key::Logging, b.logging),
        Field::Flag(Key::Fd, b.fd[0]),
        Field::Flag(Key::Comma, b.fd[1]),
        Field::Flag(Key::Comma, b.fd[2]),
        Field::Flag(Key::Comma, b.fd[3]),
    ];
    put_fields(out, at, b"", &fields)
}

fn put_peer(out: &mut [u8], at: usize, id: ShortId) -> usize
    ensures { page out.new result ≡ peer id (page out.old at) }
{
    if id.len == 0 {
        put_field(out, at, b"", Field::Word(Key::Peer, Word::None))
    } else {
        put_field(out, at, &id.bytes, Field::Bytes(Key::Peer, id.len))
    }
}

fn put_policy(out: &mut [u8], at: usize, p: Policy) -> usize
    ensures { page out.new result ≡ policy p (page out.old at) }
{
    let k = put_identity(out, at, p.identity);
    let k = put_access(out, k, p.access);
    put_buses(out, k, p.buses)
}

fn put_front(out: &mut [u8], at: usize, core: Core, l: Phones) -> usize
    ensures { page out.new result ≡ front core l (page out.old at) }
{
    let k = put_settings(out, at, core.settings);
    let k = put_method_list(out, k, core.methods);
    let k = put_policy(out, k, core.policy);
    let k = replay_cars::put_lists(out, k, l.paired, l.store);
    put_peer(out, k, core.peer)
}

fn put_save(out: &mut [u8], at: usize, s: Save) -> usize
    ensures { page out.new result ≡ save s (page out.old at) }
{
    if !s.present {
        return put_field(out, at, b"", Field::Word(Key::Save, Word::None));
    }
    let fields = [
        Field::Bytes(Key::Save, s.stored.len),
        Field::Number(Key::At, s.at as u64),
    ];
    put_fields(out, at, &s.stored.bytes, &fields)
}

fn put_queue(out: &mut [u8], at: usize, q: Queue) -> usize
    ensures { page out.new result ≡ queue q (page out.old at) }
{
    let fields = [
        Field::Number(Key::Waiting, q.count as u64),
        Field::Number(Key::LastBus, q.last as u64),
    ];
    put_fields(out, at, b"", &fields)
}

pub fn put_gate(out: &mut [u8], at: usize, g: Gate) -> usize
    ensures { page out.new result ≡ gate g (page out.old at) }
{
    let core = g.core;
    let k = put_front(out, at, core, g.phones);
    let k = replay_running::session::put_session_or_none(out, k, g);
    let fields = [
        Field::Number(Key::CooldownUntil, core.validation.cooldown_until),
        Field::Number(Key::NextSession, core.validation.next as u64),
        Field::Number(Key::TriesLeft, core.validation.tries as u64),
    ];
    let k = put_fields(out, k, b"", &fields);
    let k = replay_running::probe::put_probe(out, k, core.probe);
    let k = put_save(out, k, g.save);
    put_queue(out, k, g.queue)
}
