// What runs in a gate: the session, and the probe.
#![tactic(auto, unfolding(replay_lines::specs::Fields::put_fields, replay_page::specs::Page::item, replay_page::specs::Page::flag, replay_page::specs::Page::word, replay_page::specs::Page::known, replay_page::specs::Page::digits, phones::specs::Phones::id_bytes, crate::specs::Probe::frame, crate::specs::Probe::frame_at, crate::specs::Probe::frames_to, crate::specs::Probe::sent_at, crate::specs::Probe::sent_to, crate::specs::Probe::window, crate::specs::Probe::marks, crate::specs::Probe::probe, crate::specs::Session::code, crate::specs::Session::whose, crate::specs::Session::stands, crate::specs::Session::session_or_none))]

pub mod probe;
pub mod session;
