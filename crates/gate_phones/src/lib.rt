// The calls on the pairings, the validations and the connected phone: one function for each. State by value in; answer, signals and state by value
// out. Each promise is an equation with `step` of definition/specs/Gate.antt, for every gate that is lent.
#![tactic(auto)]

ghost use Rattle.std.specs.Prelude.{◌≡◌};
ghost use Rattle.definition.specs.Gate.{add_paired_phone, remove_paired_phone, clear_paired_phones, forget_phone_validation, prune_phone_validations, restore_phone_validations, set_ble_peer, open_phone_validations_save, take_phone_validations_save, on_lists, on_save, on_core, step, given, lent_given};
ghost use Rattle.saved_record.specs.Store.{cars_of};
ghost use Rattle.state.specs.View.{view, listed_in};
ghost use Rattle.save.specs.Save.{opening, taking};
ghost use Rattle.save.specs.Steps.{SaysOf};
ghost use Rattle.save.specs.Steps as Steps;
ghost use Rattle.validations.specs.Store.{restore};
ghost use Rattle.outcomes.specs.Served.{listed_on, kept_on};

use save::Kept;
use state::{Gate, Listed, Outcome};

pub fn add_paired_phone(g: Gate, id: &[u8]) -> Outcome
    ensures { given result ≡ step g (on_lists (add_paired_phone id.now)) }
{
    let x = pairing::add_paired_phone(g.phones, g.core.settings.bonded, id);
    outcomes::listed(g, outcomes::listed_on(g, x))
}

pub fn remove_paired_phone(g: Gate, id: &[u8]) -> Outcome
    ensures { given result ≡ step g (on_lists (remove_paired_phone id.now)) }
{
    let x = pairing::remove_paired_phone(g.phones, id);
    outcomes::listed(g, outcomes::listed_on(g, x))
}

pub fn clear_paired_phones(g: Gate) -> Outcome
    ensures { given result ≡ step g (on_lists clear_paired_phones) }
{
    let x = pairing::clear_paired_phones(g.phones);
    outcomes::listed(g, outcomes::listed_on(g, x))
}

pub fn forget_phone_validation(g: Gate, id: &[u8]) -> Outcome
    ensures { given result ≡ step g (on_lists (forget_phone_validation id.now)) }
{
    let x = forget_validations::forget_phone_validation(g.phones, id);
    outcomes::listed(g, outcomes::listed_on(g, x))
}

pub fn prune_phone_validations(g: Gate) -> Outcome
    ensures { given result ≡ step g (on_lists prune_phone_validations) }
{
    let x = forget_validations::prune_phone_validations(g.phones);
    outcomes::listed(g, outcomes::listed_on(g, x))
}

// 25 first: nothing else is looked at on a gate out of range.
#[tactic(auto, unfolding(outcomes::specs::Served::listed_on))]
fn restored(g: Gate, bytes: &[u8]) -> Listed
    ensures { result ≡ listed_on g (listed_in g.phones (restore bytes.now)) }
{
    if range::in_range(g) {
        restore_validations::restore_phone_validations(g.phones, bytes)
    } else {
        outcomes::lists_out_of_range(g.phones)
    }
}

pub fn restore_phone_validations(g: Gate, bytes: &[u8]) -> Outcome
    ensures { given result ≡ step g (on_lists (restore_phone_validations bytes.now)) }
{
    outcomes::listed(g, restored(g, bytes))
}

// An empty id is none.
#[tactic(auto, using(outcomes::proofs::Laws::by_core), unfolding(definition::specs::Gate::said, definition::specs::Gate::says))]
pub fn set_ble_peer(g: Gate, id: &[u8]) -> Outcome
    ensures { given result ≡ step g (on_core (set_ble_peer id.now)) }
{
    let said = pairing::set_ble_peer(g.core, id);
    outcomes::settled(g, outcomes::said_on(g, said))
}

// 25 first.
#[tactic(auto, unfolding(outcomes::specs::Served::kept_on, state::specs::View::view))]
fn opened(g: Gate) -> Kept
    ensures { Steps.Says result (kept_on (view g) (opening (cars_of g.phones.store))) }
{
    if range::in_range(g) {
        save::open_phone_validations_save(g.phones.store)
    } else {
        outcomes::save_out_of_range(g.save)
    }
}

// Fixes the record of this moment, to be taken piece by piece; a save that is unfinished is dropped.
pub fn open_phone_validations_save(g: Gate) -> Outcome
    ensures { given result ≡ step g (on_save open_phone_validations_save) }
{
    outcomes::kept(g, opened(g))
}

// 25 first, and the lent memory stays as it is.
#[tactic(auto, unfolding(outcomes::specs::Served::kept_on, state::specs::View::view))]
fn taken(g: Gate, out: &mut [u8]) -> Kept
    ensures { SaysOf result out.old out.new (kept_on (view g) (taking g.save out.old)) }
{
    if range::in_range(g) {
        save::take_phone_validations_save(g.save, out)
    } else {
        outcomes::save_out_of_range(g.save)
    }
}

// Hands out the next bytes of the save, as many as `out` holds; what lies past them there stays.
pub fn take_phone_validations_save(g: Gate, out: &mut [u8]) -> Outcome
    ensures { lent_given result out.new ≡ step g (on_save (take_phone_validations_save out.old)) }
{
    outcomes::kept(g, taken(g, out))
}
