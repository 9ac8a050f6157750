// What a call gives, put together from what its operation says: the gate that it leaves, and its signals. S is made here and
// nowhere else, of the store that is left. On a gate out of range the operation counts as one that answers 25 and leaves all as it is.
// A gate is put together from its parts, each copied once.
#![tactic(auto)]

ghost use Rattle.std.specs.Prelude.{◌≡◌};
ghost use Rattle.state.specs.declared.Answer.TheVariants.{BadSettings};
ghost use Rattle.state.specs.Replies.{nothing_raised, no_code, sent_s, code_at, showing};
ghost use Rattle.state.specs.View.{view, laid_store, lists_stay, listed_in};
ghost use Rattle.saved_record.specs.Store.{cars_of};
ghost use Rattle.validations.specs.Store.{record_for};
ghost use Rattle.definition.specs.Gate.{validates, of_core, of_session, nothing, gives, packed, given};
ghost use Rattle.outcomes.specs.Served.{said_on, ended_on, listed_on, save_out_of_range, out_of_range};
ghost use Rattle.outcomes.specs.Settled.{stored_if, Settles, Keeps};
ghost use Rattle.outcomes.specs.Settled as Settled;

use save::Kept;
use saved_record::Store;
use state::{
    Answer, Core, Ended, Gate, Listed, Outcome, Phones, Queue, Raised, Said, Save, Signals,
    ValidationsSignal,
};

// 25, as an operation on the core says it.
pub fn out_of_range(core: Core) -> Said
    ensures { result ≡ out_of_range core }
{
    state::replies::leave(core, Answer::BadSettings)
}

// What an operation on the core says of a gate in range; otherwise 25.
#[tactic(auto, unfolding(crate::specs::Served::said_on, state::specs::View::view))]
pub fn said_on(g: Gate, said: Said) -> Said
    ensures { result ≡ said_on (view g) said }
{
    // A return, since with an `else` a frame that is heard copies the lists once more (docs/LOOK-BACK.md).
    if range::in_range(g) {
        return said;
    }
    out_of_range(g.core)
}

// The same of a session's call.
#[tactic(auto, unfolding(crate::specs::Served::ended_on, state::specs::View::view))]
pub fn ended_on(g: Gate, e: Ended) -> Ended
    ensures { result ≡ ended_on (view g) e }
{
    if range::in_range(g) {
        e
    } else {
        validation::ends::unvalidated(out_of_range(g.core))
    }
}

// 25, as an operation on the lists gives it.
#[tactic(auto, unfolding(state::specs::View::lists_stay))]
pub fn lists_out_of_range(phones: Phones) -> Listed
    ensures { result ≡ listed_in phones (lists_stay nothing_raised BadSettings) }
{
    Listed {
        answer: Answer::BadSettings,
        raised: state::replies::nothing_raised(),
        stores: false,
        phones,
    }
}

// The same of an operation on the lists.
#[tactic(auto, unfolding(crate::specs::Served::listed_on))]
pub fn listed_on(g: Gate, x: Listed) -> Listed
    ensures { result ≡ listed_on g x }
{
    if range::in_range(g) {
        x
    } else {
        lists_out_of_range(g.phones)
    }
}

// 25, as an operation on the save gives it.
pub fn save_out_of_range(save: Save) -> Kept
    ensures { result ≡ save_out_of_range save }
{
    Kept {
        answer: Answer::BadSettings,
        save,
    }
}

// S, with the record of a store. It stays a call of its own: put in its place it makes most calls on lists copy more, and the calls of a
// session take longer (docs/LOOK-BACK.md).
#[tactic(auto, unfolding(validations::specs::Store::record_for))]
#[inline(never)]
fn stored(v: Store) -> ValidationsSignal
    ensures { result ≡ sent_s (record_for (cars_of v)) }
{
    let stored = validations::record_for(v);
    ValidationsSignal { sent: true, stored }
}

// What is sent but S: the digits are put where the operation marks them; `drawn` are those that the call drew.
fn raised_by(held: [u8; 9], drawn: [u8; 9], said: Said) -> Raised
    ensures { result ≡ showing (code_at held drawn said.shows) said.raised }
{
    let digits = state::replies::code_at(held, drawn, said.shows);
    state::replies::showing(digits, said.raised)
}

// The gate with these lists, this save and these waiting frames, and with the digits where the operation marks them.
#[tactic(auto, unfolding(crate::specs::Settled::put))]
fn put(
    held: [u8; 9],
    drawn: [u8; 9],
    said: Said,
    phones: Phones,
    save: Save,
    queue: Queue,
    signals: Signals,
) -> Outcome
    ensures { result ≡ Settled.put held drawn said phones save queue signals }
{
    Outcome {
        answer: said.answer,
        signals,
        gate: Gate {
            core: said.core,
            phones,
            save,
            queue,
            code: state::replies::code_at(held, drawn, said.code),
        },
    }
}

// S, if it is sent.
fn stored_if(stores: bool, v: Store) -> ValidationsSignal
    ensures { result ≡ stored_if stores (cars_of v) }
{
    if stores {
        stored(v)
    } else {
        state::replies::no_stored()
    }
}

// What an operation on the core says, where the call drew digits: the lists stay.
pub fn drew(g: Gate, drawn: [u8; 9], said: Said) -> Outcome
    ensures { given result ≡ gives packed g nothing (of_core (view g) drawn said) }
{
    let raised = raised_by(g.code, drawn, said);
    let signals = state::replies::sending(raised, state::replies::no_stored());
    put(g.code, drawn, said, g.phones, g.save, g.queue, signals)
}

// The same of a call that draws none.
pub fn settled(g: Gate, said: Said) -> Outcome
    ensures { given result ≡ gives packed g nothing (of_core (view g) no_code said) }
{
    drew(g, [0; 9], said)
}

// The store after a session's call: where it succeeds, its phone is validated for its car.
fn validated_by(v: Store, e: Ended) -> Store
    ensures { result ≡ laid_store v (validates (cars_of v) e.said.core.validation.session e.validates) }
{
    if e.validates {
        let s = e.said.core.validation.session;
        add_validation::validate(v, s.car, s.phone)
    } else {
        v
    }
}

// What an operation on a session says. S is sent where the session succeeds. This function is put in its place, since a call of its own
// copies the gate once more (docs/LOOK-BACK.md).
#[inline(always)]
pub fn ended(g: Gate, e: Ended) -> Outcome
    ensures { given result ≡ gives packed g nothing (of_session (view g) e) }
{
    let store = validated_by(g.phones.store, e);
    let none = [0; 9];
    let raised = raised_by(g.code, none, e.said);
    let s = stored_if(e.validates, store);
    let signals = state::replies::sending(raised, s);
    let phones = Phones { store, ..g.phones };
    put(g.code, none, e.said, phones, g.save, g.queue, signals)
}

// What an operation on the lists gives.
pub fn listed(g: Gate, x: Listed) -> Outcome
    ensures { Settles g x result }
{
    let s = stored_if(x.stores, x.phones.store);
    let signals = state::replies::sending(x.raised, s);
    Outcome {
        answer: x.answer,
        signals,
        gate: Gate {
            phones: x.phones,
            ..g
        },
    }
}

// What an operation on the save gives.
pub fn kept(g: Gate, x: Kept) -> Outcome
    ensures { Keeps g x result }
{
    Outcome {
        answer: x.answer,
        signals: state::replies::no_signals(),
        gate: Gate { save: x.save, ..g },
    }
}

// What an operation on the waiting frames gives: the core and the count that it leaves. Nothing is sent.
pub fn queued(g: Gate, answer: Answer, core: Core, queue: Queue) -> Outcome
    ensures { result ≡ Settled.queued g answer core queue }
{
    Outcome {
        answer,
        signals: state::replies::no_signals(),
        gate: Gate { core, queue, ..g },
    }
}
