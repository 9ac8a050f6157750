// Whether a line's items are those that its name wants, by the table of `replay_names`.
ghost use Rattle.std.specs.Prelude.{◌≡◌};
ghost use Rattle.replay_items.specs.Takes as Takes;
ghost use Rattle.replay_items.specs.Takes.{class_right, class_items, right_of, many_of};

use crate::Items;

// A command has its owner too.
#[tactic(auto, unfolding(crate::specs::Takes::class_right))]
fn class_right(i: Items) -> bool
    ensures { result ≡ class_right i }
{
    match i.class {
        Some(class) => !frames::is_command(class) || i.has.owner,
        None => false,
    }
}

#[tactic(auto, unfolding(crate::specs::Takes::class_items))]
fn class_items(i: Items) -> usize
    ensures { result ≡ class_items i }
{
    match i.class {
        Some(class) if frames::is_command(class) => 2,
        _ => 1,
    }
}

// Of each key of the table, in its order, whether its items are there and of their form.
#[tactic(auto, unfolding(crate::specs::Takes::found, crate::specs::Takes::right_of))]
fn right(i: Items) -> [bool; 28]
    ensures { result ≡ right_of i }
{
    [
        i.has.phone,
        i.has.method,
        i.has.random,
        i.has.code,
        i.has.stored,
        i.has.fingerprint,
        i.has.output,
        i.numbers.clock.is_some(),
        i.numbers.session.is_some(),
        i.numbers.bus.is_some(),
        i.numbers.number.is_some(),
        i.numbers.place.is_some(),
        i.numbers.next.is_some(),
        i.numbers.relocks.is_some(),
        i.numbers.turns.is_some(),
        i.numbers.length.is_some(),
        i.numbers.slot.is_some(),
        i.switches.unlocked.is_some(),
        i.switches.enabled.is_some(),
        i.switches.on.is_some(),
        i.switches.target.is_some(),
        i.car.is_some(),
        i.nobody || i.has.phone,
        i.frame.is_some(),
        class_right(i),
        i.settings.is_some(),
        i.methods.list.is_some(),
        i.frames.list.is_some(),
    ]
}

// And how many they are.
#[tactic(auto, unfolding(crate::specs::Takes::found, crate::specs::Takes::many_of))]
fn many(i: Items) -> [usize; 28]
    ensures { result ≡ many_of i }
{
    let class = class_items(i);
    let methods = i.methods.count;
    let frames = i.frames.count;
    [
        1, 1, 1, 1, 1, 1, 1, 1, 1, 1, 1, 1, 1, 1, 1, 1, 1, 1, 1, 1, 1, 1, 1, 5, class, 6, methods,
        frames,
    ]
}

// Whether a line's items are those that its name wants.
#[tactic(auto, unfolding(crate::specs::Takes::takes))]
pub fn takes(name: usize, i: Items) -> bool
    ensures { result ≡ Takes.takes name i }
{
    replay_names::takes(name, right(i), many(i), i.count)
}
