// The store of validated phones as a saved record says it: restore_phone_validations (phone_trust.rs).
#![tactic(auto)]

ghost use Rattle.std.specs.Prelude.{◌≡◌};
ghost use Rattle.state.specs.View.{listed_in};
ghost use Rattle.validations.specs.Store.{restore};
ghost use Rattle.restore_validations.specs.Answers.{refusal_answer};

use saved_record::RecordError;
use state::{Answer, Listed, Phones};

fn refusal_answer(e: RecordError) -> Answer
    ensures { result ≡ refusal_answer e }
{
    match e {
        RecordError::Malformed => Answer::Malformed,
        RecordError::CarTwice => Answer::CarTwice,
        RecordError::TooLarge => Answer::TooLarge,
    }
}

// A record that is refused empties the store.
#[tactic(auto, using(crate::proofs::Laws::restored_as, crate::proofs::Laws::refused_as))]
pub fn restore_phone_validations(p: Phones, bytes: &[u8]) -> Listed
    ensures { result ≡ listed_in p (restore bytes.now) }
{
    let (answer, store) = match decode_record::decode_phone_validations(bytes) {
        Ok(store) => (Answer::Done, store),
        Err(e) => (refusal_answer(e), saved_record::empty_store()),
    };
    Listed {
        answer,
        raised: state::replies::phone_access_changed(),
        stores: false,
        phones: Phones { store, ..p },
    }
}
