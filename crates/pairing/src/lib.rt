// The calls on the pairings and the connected phone, on a gate in range (pairing.rs, phone_trust.rs).
#![tactic(auto)]

ghost use Rattle.std.specs.Prelude.{◌≡◌};
ghost use Rattle.phones.specs.Phones.{phones_of};
ghost use Rattle.state.specs.View.{lists_in, lists_stay, listed_in};
ghost use Rattle.pairing.specs.Pairing.{set_peer};
ghost use Rattle.pairing.specs.Pairing as Pairing;

use state::{Answer, Core, Listed, Phones, Raised, Said};

// An answer, with the lists as they are given here.
#[tactic(auto, unfolding(state::specs::View::lists_stay))]
fn told(p: Phones, raised: Raised, answer: Answer) -> Listed
    ensures { result ≡ listed_in p (lists_stay raised answer) }
{
    Listed {
        answer,
        raised,
        stores: false,
        phones: p,
    }
}

#[tactic(auto, unfolding(crate::specs::Pairing::pair, state::specs::Checks::checked, state::specs::View::lists_stay))]
pub fn add_paired_phone(p: Phones, bonded: usize, id: &[u8]) -> Listed
    ensures { result ≡ listed_in p (Pairing.pair (phones_of p.paired) bonded id.now) }
{
    let none = state::replies::nothing_raised();
    let Some(q) = phones::make_id(id) else {
        return told(p, none, Answer::IdTooLong);
    };
    if id.is_empty() {
        return told(p, none, Answer::No);
    }
    let raised = state::replies::phone_access_changed();
    if phones::contains(p.paired, id) {
        return told(p, raised, Answer::Yes);
    }
    if phones::count(p.paired) < bonded {
        let paired = phones::append(p.paired, q);
        return told(Phones { paired, ..p }, raised, Answer::Yes);
    }
    told(p, raised, Answer::No)
}

#[tactic(auto, unfolding(crate::specs::Pairing::unpair, crate::specs::Pairing::unpairing))]
pub fn remove_paired_phone(p: Phones, id: &[u8]) -> Listed
    ensures { result ≡ listed_in p (Pairing.unpair (lists_in p) id.now) }
{
    if phones::contains(p.paired, id) {
        let paired = list_removals::remove_first(p.paired, id);
        return forget_validations::forgetting(Phones { paired, ..p }, Answer::Yes, id);
    }
    forget_validations::forgetting(p, Answer::No, id)
}

#[tactic(auto, unfolding(crate::specs::Pairing::clear))]
pub fn clear_paired_phones(p: Phones) -> Listed
    ensures { result ≡ listed_in p (Pairing.clear (lists_in p)) }
{
    let stores = 0 < validations::car_count(p.store);
    Listed {
        answer: Answer::Count(phones::count(p.paired)),
        raised: if stores {
            state::replies::phone_access_changed()
        } else {
            state::replies::nothing_raised()
        },
        stores,
        phones: Phones {
            paired: phones::empty_list(),
            store: validations::no_validations(),
        },
    }
}

#[tactic(auto, unfolding(crate::specs::Pairing::set_peer, state::specs::Checks::checked))]
pub fn set_ble_peer(core: Core, id: &[u8]) -> Said
    ensures { result ≡ set_peer core id.now }
{
    let Some(peer) = phones::make_id(id) else {
        return state::replies::leave(core, Answer::IdTooLong);
    };
    let c = state::parts::with_peer(core, peer);
    if phones::id_is(core.peer, id) {
        state::replies::quiet(c, Answer::Done)
    } else {
        state::replies::notified(c, Answer::Done)
    }
}
