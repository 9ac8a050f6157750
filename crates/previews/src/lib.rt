// Which phones would go (02, W-203): each preview runs its operation on a copy of the lists, and tells what it would answer and
// leave. The gate is kept and nothing is raised. Each promise is an equation with `step` of definition/specs/Gate.antt.
#![tactic(auto)]

ghost use Rattle.std.specs.Prelude.{◌≡◌};
ghost use Rattle.answers.specs.Query.{preview_remove_paired_phone, preview_forget_phone_validation, preview_clear_paired_phones, preview_prune_phone_validations, preview_approve_can_read_write};
ghost use Rattle.definition.specs.Gate.{ask, answered, step};
ghost use Rattle.previews.specs.Foresees.{previewed, Foresees};

use answers::PreviewAnswer;
use state::{Answer, Gate, Listed};

// What an operation would answer and leave, with the bytes that the record of its store would need; 25 with empty lists and 0 bytes.
fn foreseen(g: Gate, x: Listed) -> PreviewAnswer
    ensures { Foresees g x result }
{
    if range::in_range(g) {
        PreviewAnswer {
            answer: x.answer,
            paired: phones::canonical(x.phones.paired),
            store: validations::canonical(x.phones.store),
            bytes: validations::record_for(x.phones.store).len,
        }
    } else {
        PreviewAnswer {
            answer: Answer::BadSettings,
            paired: phones::empty_list(),
            store: validations::no_validations(),
            bytes: 0,
        }
    }
}

pub fn preview_remove_paired_phone(g: Gate, id: &[u8]) -> PreviewAnswer
    ensures { answered g (previewed result) ≡ step g (ask (preview_remove_paired_phone id.now)) }
{
    foreseen(g, pairing::remove_paired_phone(g.phones, id))
}

pub fn preview_forget_phone_validation(g: Gate, id: &[u8]) -> PreviewAnswer
    ensures { answered g (previewed result) ≡ step g (ask (preview_forget_phone_validation id.now)) }
{
    foreseen(g, forget_validations::forget_phone_validation(g.phones, id))
}

pub fn preview_clear_paired_phones(g: Gate) -> PreviewAnswer
    ensures { answered g (previewed result) ≡ step g (ask preview_clear_paired_phones) }
{
    foreseen(g, pairing::clear_paired_phones(g.phones))
}

pub fn preview_prune_phone_validations(g: Gate) -> PreviewAnswer
    ensures { answered g (previewed result) ≡ step g (ask preview_prune_phone_validations) }
{
    foreseen(g, forget_validations::prune_phone_validations(g.phones))
}

// Approving touches no list (W-207), so the lists are told as they are, also with 2.
pub fn preview_approve_can_read_write(g: Gate) -> PreviewAnswer
    ensures { answered g (previewed result) ≡ step g (ask preview_approve_can_read_write) }
{
    let x = Listed {
        answer: can_access::approve_can_read_write(g.core).answer,
        raised: state::replies::nothing_raised(),
        stores: false,
        phones: g.phones,
    };
    foreseen(g, x)
}
