// Makes the call of the gate that a line's name and items say, one arm for each call. specs/Calls.antt says which it is.
#![tactic(auto)]

ghost use Rattle.std.specs.Prelude.{◌≡◌};
ghost use Rattle.definition.specs.Gate.{given, step};
ghost use Rattle.replay_items.specs.Bytes.{lent_bytes};
ghost use Rattle.replay_calls.specs.Calls.{phone_call, can_call};

use frames::TxClass;
use replay_items::{Ends, Items, NO_CAR, NO_FRAME, NO_SETTINGS};
use replay_lists::NO_METHOD;
use state::{Gate, Outcome};

// The calls of the phones, by their place. The first is `new`; a number past the last makes it too.
#[tactic(auto, unfolding(replay_items::specs::Bytes::lent_bytes, crate::specs::Calls::phone_call, crate::specs::Calls::phone_calls))]
pub fn phone_call(g: Gate, name: usize, i: Items, p: Ends, room: &[u8]) -> Outcome
    ensures { given result ≡ step g (phone_call name i (lent_bytes p room.now)) }
{
    let at = i.numbers.clock.unwrap_or(0);
    let phone = replay_items::bytes::lent(room, 0, p.phone);
    let method = replay_items::bytes::lent(room, p.phone, p.method);
    let random = replay_items::bytes::lent(room, p.method, p.random);
    let typed = replay_items::bytes::lent(room, p.random, p.code);
    let stored = replay_items::bytes::lent(room, p.code, p.stored);
    // An arm has a number, since a name is the number of its row in replay_names' table, which specs/Calls.antt and Names.antt count in.
    match name {
        1 => gate_sessions::start_validation(g, phone, method, at, random),
        2 => gate_sessions::submit_validation_code(g, phone, typed, at),
        3 => gate_sessions::cancel_validation(g, phone, at),
        4 => gate_sessions::complete_validation_action_at(g, i.numbers.session.unwrap_or(0), at),
        5 => gate_sessions::tick_validation(g, at),
        6 => gate_phones::add_paired_phone(g, phone),
        7 => gate_phones::remove_paired_phone(g, phone),
        8 => gate_phones::clear_paired_phones(g),
        9 => gate_phones::forget_phone_validation(g, phone),
        10 => gate_phones::prune_phone_validations(g),
        11 => gate_phones::restore_phone_validations(g, stored),
        12 => gate_phones::open_phone_validations_save(g),
        13 => gate_phones::set_ble_peer(g, phone),
        _ => {
            let settings = i.settings.unwrap_or(NO_SETTINGS);
            let list = i.methods.list.unwrap_or([NO_METHOD; 8]);
            gate_sessions::new_gate(settings, list, i.methods.count)
        }
    }
}

// The calls of the bike's access, its probe and outbound frames, and the notes, by their place. The first is
// `approve_can_read_write`; a number past the last makes it too.
#[tactic(auto, unfolding(replay_items::specs::Bytes::lent_bytes, crate::specs::Calls::can_call, crate::specs::Calls::can_calls))]
pub fn can_call(g: Gate, name: usize, i: Items, p: Ends, room: &[u8]) -> Outcome
    ensures { given result ≡ step g (can_call name i (lent_bytes p room.now)) }
{
    let bus = i.numbers.bus.unwrap_or(0);
    let at = i.numbers.clock.unwrap_or(0);
    let place = i.numbers.place.unwrap_or(0) as usize;
    let on = i.switches.on.unwrap_or(false);
    let print = replay_items::bytes::lent(room, p.stored, p.fingerprint);
    let owner = replay_items::bytes::lent(room, p.fingerprint, p.owner);
    // An arm has a number, since a name is the number of its row in replay_names' table, which specs/Calls.antt and Names.antt count in.
    match name {
        1 => gate_access::revoke_can_read_write_approval(g),
        2 => gate_access::restore_can_read_write_approval(g, i.car.unwrap_or(NO_CAR)),
        3 => gate_access::set_can_dev_write_unlocked(g, i.switches.unlocked.unwrap_or(false)),
        4 => gate_access::declare_production_build(g),
        5 => gate_access::confirm_car_identity(g),
        6 => gate_access::revoke_car_identity(g),
        7 => gate_access::confirm_car_fingerprint(g, print),
        8 => gate_access::set_can_read_only(g, i.switches.enabled.unwrap_or(false)),
        9 => {
            let list = i.frames.list.unwrap_or([replay_lists::NO_FRAME; 4]);
            gate_frames::open_identity_probe(g, bus, list, i.frames.count, at)
        }
        10 => gate_frames::close_identity_probe(g),
        11 => {
            let frame = i.frame.unwrap_or(NO_FRAME);
            let class = i.class.unwrap_or(TxClass::Platform);
            gate_frames::allow_can_tx(g, bus, frame, class, owner, at)
        }
        12 => gate_frames::heard_can_frame(g, bus, at),
        13 => gate_frames::note_platform_id(g, i.numbers.number.unwrap_or(0)),
        14 => gate_frames::note_can_logging(g, on),
        15 => gate_frames::note_can_fd_bus(g, bus, on),
        16 => gate_frames::note_method_available(g, place, on),
        17 => gate_frames::note_method_can_continue(g, place, on),
        _ => gate_access::approve_can_read_write(g),
    }
}
