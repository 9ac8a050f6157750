// The times of a session and its number (validation.rs).
#![tactic(auto)]

ghost use Rattle.std.specs.Prelude.{◌≡◌};
ghost use Rattle.session_times.specs.Times.{saturating_add, seconds_to, next_number};

// Public: start and judge call it, and definitions name it.
#[tactic(auto, unfolding(crate::specs::Times::saturating_add))]
pub fn saturating_add(clock: u64, span: u64) -> u64
    ensures { result ≡ saturating_add clock span }
{
    clock.saturating_add(span)
}

// Rounded up, 0 if passed, modulo 2^32.
#[tactic(auto, unfolding(crate::specs::Times::seconds_to))]
pub fn seconds_to(until: u64, clock: u64) -> u32
    ensures { result ≡ seconds_to until clock }
{
    (until.saturating_sub(clock).div_ceil(1_000) % 0x1_0000_0000) as u32
}

// The wrapping sum, zero skipped.
#[tactic(auto, unfolding(crate::specs::Times::next_number))]
pub fn next_number(n: u32) -> u32
    ensures { result ≡ next_number n }
{
    n.wrapping_add(1).max(1)
}
