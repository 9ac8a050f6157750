// The check of every outbound frame, on a core in range (can_probe.rs).
#![tactic(auto)]

ghost use Rattle.std.specs.Prelude.{◌≡◌, ◌&&◌, eqb};
ghost use Rattle.state.specs.Answers.{values, is_yes};
ghost use Rattle.probe_window.specs.Window.{is_open};
ghost use Rattle.can_tx.specs.Tx.{allow, allows_command};
ghost use Rattle.can_tx.specs.Verdict.{found_as, window_verdict, platform_verdict, verdict, answer_by, core_by};

use frames::{CanFrame, TxClass};
use state::{Answer, Core, Policy, Probe, Said};

// What is decided of a frame. It is small, and the core is left alone but where an entry of the probe is marked: both calls that
// have a frame decided look at the core where it lies.
#[derive(Clone, Copy)]
pub enum Verdict {
    Passes,
    // through the window, as the entry at this place
    Marks(usize),
    Denied,
    BadFrame,
}

// A frame that was found among the entries passes.
fn found_as(found: Option<usize>) -> Verdict
    ensures { result ≡ found_as found }
{
    match found {
        Some(i) => Verdict::Marks(i),
        None => Verdict::Denied,
    }
}

// Whether the frame is for this bus, of 8 bytes, and a window is open on it.
fn reaches_window(p: Policy, b: Probe, bus: u8, frame: CanFrame, clock: u64) -> bool
    ensures { result ≡ (eqb frame.bus bus && eqb frame.dlc 8 && is_open p b bus clock) }
{
    frame.bus == bus && frame.dlc == 8 && probe_window::is_open(p, b, bus, clock)
}

// Only an open window lets the frame through.
#[tactic(auto, unfolding(crate::specs::Verdict::window_verdict))]
fn through_window(core: Core, bus: u8, frame: CanFrame, clock: u64) -> Verdict
    ensures { result ≡ window_verdict core bus frame clock }
{
    if reaches_window(core.policy, core.probe, bus, frame, clock) {
        found_as(probe_window::unsent_in(core.probe.window, frame))
    } else {
        Verdict::Denied
    }
}

#[tactic(auto, unfolding(crate::specs::Verdict::platform_verdict))]
fn allow_platform(core: Core, bus: u8, frame: CanFrame, clock: u64) -> Verdict
    ensures { result ≡ platform_verdict core bus frame clock }
{
    if policy::is_can_bus_read_only(core.policy, bus) {
        through_window(core, bus, frame, clock)
    } else {
        Verdict::Passes
    }
}

#[tactic(auto, unfolding(crate::specs::Tx::allows_command))]
fn allows_command(policy: Policy, bus: u8, frame: CanFrame, validated: bool) -> bool
    ensures { result ≡ allows_command policy bus frame validated }
{
    frame.bus == bus && !policy::is_can_bus_read_only(policy, bus) && validated
}

// `validated`: the phone that a command is for is; for a platform frame it is not looked at.
#[tactic(auto, unfolding(crate::specs::Verdict::verdict))]
pub fn decide_can_tx(
    core: Core,
    bus: u8,
    frame: CanFrame,
    class: TxClass,
    validated: bool,
    clock: u64,
) -> Verdict
    ensures { result ≡ verdict core bus frame class validated clock }
{
    if !frames::can_id_in_range(frame.id) {
        return Verdict::BadFrame;
    }
    match class {
        TxClass::Platform => allow_platform(core, bus, frame, clock),
        TxClass::Command if allows_command(core.policy, bus, frame, validated) => Verdict::Passes,
        TxClass::Command => Verdict::Denied,
    }
}

// ---- what a verdict says

fn answer_by(v: Verdict) -> Answer
    ensures { result ≡ answer_by v }
{
    match v {
        Verdict::Passes | Verdict::Marks(_) => Answer::Yes,
        Verdict::Denied => Answer::No,
        Verdict::BadFrame => Answer::BadFrame,
    }
}

// Whether the answer is yes.
pub fn is_yes(v: Verdict) -> bool
    ensures { result ≡ is_yes (values (answer_by v)) }
{
    matches!(v, Verdict::Passes | Verdict::Marks(_))
}

// The entry through which a frame passed is marked sent.
pub fn core_by(core: Core, v: Verdict) -> Core
    ensures { result ≡ core_by core v }
{
    match v {
        Verdict::Marks(i) => {
            let marked = probe_window::marked_sent(core.probe.window, i);
            state::parts::with_probe(core, state::parts::with_window(core.probe, marked))
        }
        _ => core,
    }
}

#[tactic(auto, using(crate::proofs::Laws::decided_so))]
pub fn allow_can_tx(
    core: Core,
    bus: u8,
    frame: CanFrame,
    class: TxClass,
    validated: bool,
    clock: u64,
) -> Said
    ensures { result ≡ allow core bus frame class validated clock }
{
    let v = decide_can_tx(core, bus, frame, class, validated, clock);
    state::replies::quiet(core_by(core, v), answer_by(v))
}
