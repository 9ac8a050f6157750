// The values of single items.
ghost use Rattle.std.specs.Prelude.{◌≡◌};
ghost use Rattle.replay_items.specs.Values.{number_at, switch_at, class_at, frame_at, settings_at, numbers_at, switches_at};

use crate::{Numbers, Switches};
use frames::{CanFrame, TxClass};
use state::Settings;

#[tactic(auto, using(crate::proofs::Laws::the_most), unfolding(crate::specs::Values::number_at))]
fn small(line: &[u8], key: &[u8]) -> Option<u8>
    ensures { result ≡ number_at 255 key.now line.now }
{
    Some(replay_values::number_of(line, key, 255)? as u8)
}

#[tactic(auto, using(crate::proofs::Laws::the_most), unfolding(crate::specs::Values::number_at))]
fn word(line: &[u8], key: &[u8]) -> Option<u32>
    ensures { result ≡ number_at 4294967295 key.now line.now }
{
    Some(replay_values::number_of(line, key, 4294967295)? as u32)
}

#[tactic(auto, unfolding(crate::specs::Values::number_at))]
fn up_to(line: &[u8], key: &[u8], most: u64) -> Option<usize>
    ensures { result ≡ number_at most key.now line.now }
{
    Some(replay_values::number_of(line, key, most)? as usize)
}

#[tactic(auto, unfolding(crate::specs::Values::class_at))]
pub fn class(line: &[u8]) -> Option<TxClass>
    ensures { result ≡ class_at line.now }
{
    if replay_values::is_word(line, b"class", b"platform") {
        Some(TxClass::Platform)
    } else if replay_values::is_word(line, b"class", b"command") {
        Some(TxClass::Command)
    } else {
        None
    }
}

#[tactic(auto, unfolding(crate::specs::Values::frame_at))]
pub fn frame(line: &[u8]) -> Option<CanFrame>
    ensures { result ≡ frame_at line.now }
{
    let id = replay_values::can_id_of(line)?;
    let bus = small(line, b"frame_bus")?;
    let dlc = small(line, b"dlc")?;
    let data = replay_values::data_of(line)?;
    Some(CanFrame { bus, id, data, dlc })
}

#[tactic(auto, unfolding(crate::specs::Values::settings_at))]
pub fn settings(line: &[u8]) -> Option<Settings>
    ensures { result ≡ settings_at line.now }
{
    let digits = word(line, b"digits")?;
    let tries = word(line, b"tries")?;
    let session = word(line, b"session")?;
    let cooldown = word(line, b"cooldown")?;
    let keep = word(line, b"keep")?;
    let bonded = word(line, b"bonded")?;
    Some(Settings {
        digits: digits as usize,
        tries: tries as usize,
        session: u64::from(session),
        cooldown: u64::from(cooldown),
        keep: u64::from(keep),
        bonded: bonded as usize,
    })
}

#[tactic(auto, unfolding(crate::specs::Values::numbers_at, crate::specs::Values::number_at))]
pub fn numbers(line: &[u8]) -> Numbers
    ensures { result ≡ numbers_at line.now }
{
    Numbers {
        clock: replay_values::number_of(line, b"now", 18446744073709551615),
        session: word(line, b"session"),
        bus: small(line, b"bus"),
        number: word(line, b"number"),
        place: word(line, b"place"),
        next: word(line, b"next_session"),
        relocks: word(line, b"relocks"),
        turns: word(line, b"turns"),
        length: up_to(line, b"length", 17),
        slot: up_to(line, b"place", 16),
    }
}

#[tactic(auto, unfolding(crate::specs::Values::switches_at, crate::specs::Values::switch_at))]
pub fn switches(line: &[u8]) -> Switches
    ensures { result ≡ switches_at line.now }
{
    Switches {
        unlocked: replay_values::flag_of(line, b"unlocked"),
        enabled: replay_values::flag_of(line, b"enabled"),
        on: replay_values::flag_of(line, b"on"),
        target: replay_values::flag_of(line, b"target"),
    }
}
