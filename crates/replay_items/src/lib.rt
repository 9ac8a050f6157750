// The items of a script's line, read all at once: each has a value if it stands there once and is of its form.
// `takes` then says which of them a name wants. Bytes are laid down in lent memory, one value behind the other.
#![tactic(auto)]

pub mod bytes;
pub mod takes;
pub mod values;

ghost use Rattle.std.specs.Prelude.{◌≤◌, length};
ghost use Rattle.replay_items.specs.Items.{Reads};

use frames::{CanFrame, Id, TxClass};
use replay_lists::{Methods, ProbeFrames};
use state::{Car, Settings};

// What a call gets for an item that its line has not; `takes` lets no such line through.
pub const NO_CAR: Car = Car {
    known: false,
    digest: [0; 32],
};

pub const NO_FRAME: CanFrame = CanFrame {
    bus: 0,
    id: Id::Standard(0),
    data: [0; 8],
    dlc: 0,
};

pub const NO_SETTINGS: Settings = Settings {
    digits: 0,
    tries: 0,
    session: 0,
    cooldown: 0,
    keep: 0,
    bonded: 0,
};

// A length and a place of the host's list, `slot`, are of up to the most that they may be; `slot` stands behind the same key as
// `place`.
#[derive(Clone, Copy)]
pub struct Numbers {
    pub clock: Option<u64>,
    pub session: Option<u32>,
    pub bus: Option<u8>,
    pub number: Option<u32>,
    pub place: Option<u32>,
    pub next: Option<u32>,
    pub relocks: Option<u32>,
    pub turns: Option<u32>,
    pub length: Option<usize>,
    pub slot: Option<usize>,
}

#[derive(Clone, Copy)]
pub struct Switches {
    pub unlocked: Option<bool>,
    pub enabled: Option<bool>,
    pub on: Option<bool>,
    pub target: Option<bool>,
}

// Which byte values there are.
#[derive(Clone, Copy)]
pub struct Has {
    pub phone: bool,
    pub method: bool,
    pub random: bool,
    pub code: bool,
    pub stored: bool,
    pub fingerprint: bool,
    pub owner: bool,
    pub output: bool,
}

// Where each byte value ends in lent memory; it begins where the one before it ends, the first at 0.
#[derive(Clone, Copy)]
pub struct Ends {
    pub phone: usize,
    pub method: usize,
    pub random: usize,
    pub code: usize,
    pub stored: usize,
    pub fingerprint: usize,
    pub owner: usize,
    pub output: usize,
}

// One byte value that was laid down: whether there is one, and the place after it. No Option: with none the next value still
// begins at `end`.
#[derive(Clone, Copy)]
struct LaidValue {
    ok: bool,
    end: usize,
}

#[derive(Clone, Copy)]
pub struct LaidValues {
    has: Has,
    ends: Ends,
}

// `count` is how many items there are, known or not; `frame` is made of frame_bus, kind, id, dlc and data; `nobody` says that the phone is `none`.
#[derive(Clone, Copy)]
pub struct Items {
    pub count: usize,
    pub numbers: Numbers,
    pub switches: Switches,
    pub car: Option<Car>,
    pub class: Option<TxClass>,
    pub frame: Option<CanFrame>,
    pub frames: ProbeFrames,
    pub settings: Option<Settings>,
    pub methods: Methods,
    pub nobody: bool,
    pub has: Has,
}

#[derive(Clone, Copy)]
pub struct ItemsRead {
    pub items: Items,
    pub ends: Ends,
}

// Reads a line; `room` has room for as many bytes as the line, and so for all its byte values together.
#[tactic(auto, unfolding(crate::specs::Items::read_of))]
pub fn read(line: &[u8], room: &mut [u8]) -> ItemsRead
    requires { length line.now ≤ length room.old }
    ensures { Reads line.now room.old room.new result }
{
    let laid = bytes::lay_all(line, room);
    let items = Items {
        count: replay_script::items(line),
        numbers: values::numbers(line),
        switches: values::switches(line),
        car: replay_values::car_of(line),
        class: values::class(line),
        frame: values::frame(line),
        frames: replay_lists::frames_of(line),
        settings: values::settings(line),
        methods: replay_lists::methods_of(line),
        nobody: replay_values::is_word(line, b"phone", b"none"),
        has: laid.has,
    };
    ItemsRead {
        items,
        ends: laid.ends,
    }
}
