// The lines that a replay prints. Each `put_` function writes over `out` from `at` on and answers the place after what it
// wrote; where something does not fit, a place past the end.
#![tactic(auto, unfolding(crate::specs::Fields::put_fields, crate::specs::Answer::reply, crate::specs::Parts::id_at, crate::specs::Parts::method, crate::specs::Lent::output, crate::specs::Answer::answer, replay_page::specs::Page::flag, replay_page::specs::Page::item, replay_page::specs::Page::word, replay_page::specs::Page::known))]

pub mod answer;
pub mod fields;
pub mod key;
pub mod lent;
pub mod parts;
pub mod word;
