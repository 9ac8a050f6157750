// The receive marks and the probe window (can_probe.rs).
#![tactic(auto)]

ghost use Rattle.std.specs.Prelude.{◌≡◌, take};
ghost use Rattle.arrays.specs.Arrays.{padded};
ghost use Rattle.probe_window.specs.Window.{heard_at, ids_in_range, is_awake, is_bus_awake, is_listen_only, is_open, is_within_time, marked_sent, new_window, no_frame, no_window, probe_needed, unsent_in};

use frames::{CanFrame, Id, ProbeFrame};
use state::{Identity, Policy, Probe, Window};

// Whether a bus with this mark heard a frame at most 1,000 ms ago; a mark later than now is none.
#[tactic(auto, unfolding(crate::specs::Window::is_awake))]
fn is_awake(heard: bool, mark: u64, clock: u64) -> bool
    ensures { result ≡ is_awake heard mark clock }
{
    heard && mark <= clock && clock - mark <= 1_000
}

#[tactic(auto, unfolding(crate::specs::Window::is_bus_awake, frames::specs::Frames::bus_exists))]
pub fn is_bus_awake(heard: [bool; 4], marks: [u64; 4], bus: u8, clock: u64) -> bool
    ensures { result ≡ is_bus_awake heard marks bus clock }
{
    let i = usize::from(bus);
    frames::bus_exists(bus) && is_awake(heard[i], marks[i], clock)
}

// A frame is heard on a bus; one above 3 has no mark.
#[tactic(auto, unfolding(crate::specs::Window::heard_at))]
pub fn heard_at(mut probe: Probe, bus: u8, clock: u64) -> Probe
    ensures { result ≡ heard_at probe bus clock }
{
    if bus < 4 {
        let i = usize::from(bus);
        probe.heard[i] = true;
        probe.marks[i] = clock;
    }
    probe
}

// The platform is confirmed and the car is not.
#[tactic(auto, unfolding(crate::specs::Window::probe_needed))]
pub fn is_probe_needed(i: Identity) -> bool
    ensures { result ≡ probe_needed i }
{
    i.confirmed && !policy::is_car_fingerprint_confirmed(i)
}

// Less than 6,000 ms since the opening; an earlier clock counts as no time.
#[tactic(auto, unfolding(crate::specs::Window::is_within_time))]
pub fn is_within_time(opened: u64, clock: u64) -> bool
    ensures { result ≡ is_within_time opened clock }
{
    clock.saturating_sub(opened) < 6_000
}

// with_open_window.
#[tactic(auto, unfolding(crate::specs::Window::is_open))]
pub fn is_open(p: Policy, b: Probe, bus: u8, clock: u64) -> bool
    ensures { result ≡ is_open p b bus clock }
{
    b.window.present
        && is_probe_needed(p.identity)
        && !p.buses.logging
        && b.window.bus == bus
        && is_within_time(b.window.opened, clock)
        && b.window.relocks == b.relocks
}

#[tactic(auto, unfolding(crate::specs::Window::is_listen_only))]
pub fn is_can_bus_listen_only(p: Policy, b: Probe, bus: u8, clock: u64) -> bool
    ensures { result ≡ is_listen_only p b bus clock }
{
    policy::is_can_bus_read_only(p, bus) && !is_open(p, b, bus, clock)
}

pub fn no_frame() -> ProbeFrame
    ensures { result ≡ no_frame }
{
    ProbeFrame {
        id: Id::Standard(0),
        data: [0; 8],
    }
}

// Whether the id of each of the first `count` frames fits its width.
#[tactic(auto, unfolding(crate::specs::Window::ids_in_range))]
pub fn ids_in_range(frames: [ProbeFrame; 4], count: usize) -> bool
    ensures { result ≡ ids_in_range (take count frames) }
{
    frames
        .iter()
        .take(count)
        .all(|f| frames::can_id_in_range(f.id))
}

// The place of the first entry of a window that is this frame and was not sent yet.
#[tactic(auto, unfolding(crate::specs::Window::unsent_in))]
pub fn unsent_in(w: Window, frame: CanFrame) -> Option<usize>
    ensures { result ≡ unsent_in w frame }
{
    w.frames
        .iter()
        .take(w.count)
        .zip(&w.sent)
        .position(|(entry, sent)| frames::is_entry(*entry, frame) && !*sent)
}

pub fn no_window() -> Window
    ensures { result ≡ no_window }
{
    Window {
        present: false,
        bus: 0,
        frames: [no_frame(); 4],
        count: 0,
        opened: 0,
        relocks: 0,
        sent: [false; 4],
    }
}

// The first `count` frames, then empty ones.
#[tactic(auto, unfolding(arrays::specs::Arrays::padded))]
fn first_frames(lent: [ProbeFrame; 4], count: usize) -> [ProbeFrame; 4]
    ensures { result ≡ padded 4 no_frame (take count lent) }
{
    let used = count.min(4);
    let mut frames = [no_frame(); 4];
    frames[..used].copy_from_slice(&lent[..used]);
    frames
}

// A window for the first `count` frames, none of them marked.
#[tactic(auto, unfolding(crate::specs::Window::new_window))]
pub fn new_window(bus: u8, lent: [ProbeFrame; 4], count: usize, clock: u64, relocks: u32) -> Window
    ensures { result ≡ new_window bus (take count lent) clock relocks }
{
    Window {
        present: true,
        bus,
        frames: first_frames(lent, count),
        count: count.min(4),
        opened: clock,
        relocks,
        sent: [false; 4],
    }
}

// The window with the frame at a place marked; past the last place nothing changes.
#[tactic(auto, unfolding(crate::specs::Window::marked_sent))]
pub fn marked_sent(mut w: Window, i: usize) -> Window
    ensures { result ≡ marked_sent w i }
{
    if i < 4 {
        w.sent[i] = true;
    }
    w
}
