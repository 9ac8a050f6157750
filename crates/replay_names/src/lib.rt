// The names of a script's lines and the items that each wants, one row to a name. specs/Names.antt has the same rows as a list,
// and says what the words behind a name are.
#![tactic(auto)]

ghost use Rattle.std.specs.Prelude.{◌≡◌, ltb, length};
ghost use Rattle.word_table.specs.Words.{lines_of, rest_of, place_in};
ghost use Rattle.replay_names.specs.Names as Names;
ghost use Rattle.replay_names.specs.Names.{rows, keys, exactly, wanted};

const ROWS: [u8; 1858] = *b"new settings methods
start_validation phone method now random
submit_validation_code phone code now
cancel_validation phone now
complete_validation_action_at session now
tick_validation now
add_paired_phone phone
remove_paired_phone phone
clear_paired_phones
forget_phone_validation phone
prune_phone_validations
restore_phone_validations record
open_phone_validations_save
set_ble_peer peer
approve_can_read_write
revoke_can_read_write_approval
restore_can_read_write_approval car
set_can_dev_write_unlocked unlocked
declare_production_build
confirm_car_identity
revoke_car_identity
confirm_car_fingerprint fingerprint
set_can_read_only enabled
open_identity_probe bus now frames
close_identity_probe
allow_can_tx bus frame class now
heard_can_frame bus now
note_platform_id number
note_can_logging on
note_can_fd_bus bus on
note_method_available place on
note_method_can_continue place on
is_can_read_only
can_read_only_reason
is_car_identity_confirmed
is_car_fingerprint_confirmed
has_can_dev_write_lock
is_can_dev_write_unlocked
platform_id
is_can_logging
is_can_fd_bus bus
is_can_bus_read_only bus
is_can_bus_listen_only bus now
is_phone_paired phone
paired_phone_count
ble_max_bonded_phones
is_phone_validated phone
car_has_validated_phone
session_for phone now
can_read_write_approval
can_access_state
list_paired_phones
phone_trust_level phone
ble_peer
phone_access_state now
validation_methods
current_validation_challenge
encode_phone_validations
preview_remove_paired_phone phone
preview_forget_phone_validation phone
preview_clear_paired_phones
preview_prune_phone_validations
preview_approve_can_read_write
set_counters next_session relocks
state
convert_phone_validations record target output
take_phone_validations_save output
send_can_frame frame class
serve_can_frames turns now
set_list length
set_record record_place frame class
lent_list
";

// The number of a name, or the number of rows.
pub fn name_of(word: &[u8]) -> usize
    ensures { result ≡ place_in rows word.now }
{
    word_table::place_in(&ROWS, word)
}

// Whether a row has this number.
pub fn is_name(name: usize) -> bool
    ensures { result ≡ ltb name (length rows) }
{
    name < 72
}

const KEYS: [u8; 199] = *b"phone
method
random
code
record
fingerprint
output
now
session
bus
number
place
next_session
relocks
turns
length
record_place
unlocked
enabled
on
target
car
peer
frame
class
settings
methods
frames
";

// Whether the items that a row's words behind its name say are right, and no other is there.
fn has_all(row: &[u8], keys: &[u8], right: [bool; 28], many: [usize; 28], count: usize) -> bool
    ensures { result ≡ exactly (lines_of 10 keys.now) right many count (lines_of 32 (rest_of row.now)) }
{
    let mut words = match word_table::first_piece(row, b' ') {
        Some((_, behind)) => behind,
        None => row,
    };
    let mut left = count;
    while let Some((word, rest)) = word_table::first_piece(words, b' ') {
        let k = word_table::place_in(keys, word);
        if 28 <= k || !right[k] || left < many[k] {
            return false;
        }
        left -= many[k];
        words = rest;
    }
    0 == left
}

// The same of the row at a place of a table.
#[tactic(auto, unfolding(crate::specs::Names::wanted))]
fn row_takes(
    rows: &[u8],
    keys: &[u8],
    name: usize,
    right: [bool; 28],
    many: [usize; 28],
    count: usize,
) -> bool
    ensures { result ≡ wanted (lines_of 10 rows.now) (lines_of 10 keys.now) name right many count }
{
    has_all(word_table::row_at(rows, name), keys, right, many, count)
}

fn name_takes(name: usize, right: [bool; 28], many: [usize; 28], count: usize) -> bool
    ensures { result ≡ wanted rows keys name right many count }
{
    row_takes(&ROWS, &KEYS, name, right, many, count)
}

// Whether these are the items that a name wants: `right` says of each key whether its items are there and of their form, `many`
// how many they are, `count` how many items there are at all.
#[tactic(auto, unfolding(crate::specs::Names::takes))]
pub fn takes(name: usize, right: [bool; 28], many: [usize; 28], count: usize) -> bool
    ensures { result ≡ Names.takes name right many count }
{
    is_name(name) && name_takes(name, right, many, count)
}
