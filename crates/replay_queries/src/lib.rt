// Asks the query that a line names, one arm for each. `replay_calls` says which query it is, specs/Shown.antt how its reply is shown.
#![tactic(auto)]

ghost use Rattle.std.specs.Prelude.{◌≡◌};
ghost use Rattle.answers.specs.Query.{plain};
ghost use Rattle.definition.specs.Gate.{ask, answered, step};
ghost use Rattle.replay_items.specs.Bytes.{lent_bytes};
ghost use Rattle.replay_answers.specs.Query.{long_room};
ghost use Rattle.replay_page.specs.Page.{page};
ghost use Rattle.replay_page.specs.Room.{Within};
ghost use Rattle.replay_calls.specs.Calls.{plain_query, long_query};
ghost use Rattle.replay_queries.specs.Shown.{shown};

use replay_items::{Ends, Items};
use state::{Answer, Gate};

// The queries that give an answer and nothing else, by their place; a number past the last asks the first.
pub fn plain_query(g: Gate, name: usize, i: Items, p: Ends, room: &[u8]) -> Answer
    ensures { answered g (plain result) ≡ step g (ask (plain_query name i (lent_bytes p room.now))) }
{
    let bus = i.numbers.bus.unwrap_or(0);
    let at = i.numbers.clock.unwrap_or(0);
    let phone = replay_items::bytes::lent(room, 0, p.phone);
    // An arm has a number, since a name is the number of its row in replay_names' table, which specs/Calls.antt and Names.antt count in.
    match name {
        1 => queries::can_read_only_reason(g),
        2 => queries::is_car_identity_confirmed(g),
        3 => queries::is_car_fingerprint_confirmed(g),
        4 => queries::has_can_dev_write_lock(g),
        5 => queries::is_can_dev_write_unlocked(g),
        6 => queries::platform_id(g),
        7 => queries::is_can_logging(g),
        8 => queries::is_can_fd_bus(g, bus),
        9 => queries::is_can_bus_read_only(g, bus),
        10 => queries::is_can_bus_listen_only(g, bus, at),
        11 => queries::is_phone_paired(g, phone),
        12 => queries::paired_phone_count(g),
        13 => queries::ble_max_bonded_phones(g),
        14 => queries::is_phone_validated(g, phone),
        15 => queries::car_has_validated_phone(g),
        16 => queries::session_for(g, phone, at),
        _ => queries::is_can_read_only(g),
    }
}

// Lays down the answer of a query that holds more, by the query's place; a number past the last asks the first.
pub fn put_long(
    g: Gate,
    name: usize,
    i: Items,
    p: Ends,
    room: &[u8],
    out: &mut [u8],
    at: usize,
) -> usize
    ensures { (page out.new result ≡ shown (step g (ask (long_query name i (lent_bytes p room.now)))).answer (page out.old at)) × Within long_room (shown (step g (ask (long_query name i (lent_bytes p room.now)))).answer) }
{
    let phone = replay_items::bytes::lent(room, 0, p.phone);
    // An arm has a number, since a name is the number of its row in replay_names' table, which specs/Calls.antt and Names.antt count in.
    match name {
        1 => replay_answers::put_access(out, at, queries::can_access_state(g)),
        2 => { replay_answers::put_phones_listed(out, at, queries::list_paired_phones(g)) }
        3 => { replay_answers::put_trust(out, at, queries::phone_trust_level(g, phone)) }
        4 => replay_answers::put_peer(out, at, queries::ble_peer(g)),
        5 => {
            let access = queries::phone_access_state(g, i.numbers.clock.unwrap_or(0));
            replay_answers::put_phone_access(out, at, access)
        }
        6 => replay_answers::put_methods(out, at, queries::validation_methods(g)),
        7 => { replay_answers::put_challenge(out, at, queries::current_validation_challenge(g)) }
        8 => { replay_answers::put_encoded(out, at, queries::encode_phone_validations(g)) }
        9 => {
            let told = previews::preview_remove_paired_phone(g, phone);
            replay_answers::put_preview(out, at, told)
        }
        10 => {
            let told = previews::preview_forget_phone_validation(g, phone);
            replay_answers::put_preview(out, at, told)
        }
        11 => { replay_answers::put_preview(out, at, previews::preview_clear_paired_phones(g)) }
        12 => { replay_answers::put_preview(out, at, previews::preview_prune_phone_validations(g)) }
        13 => { replay_answers::put_preview(out, at, previews::preview_approve_can_read_write(g)) }
        _ => { replay_answers::put_approval(out, at, queries::can_read_write_approval(g)) }
    }
}
