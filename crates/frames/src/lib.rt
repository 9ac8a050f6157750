// CAN ids and frames, the class of a frame to send, the buses.
#![tactic(auto)]

ghost use Rattle.std.specs.Prelude.{◌≡◌};
ghost use Rattle.arrays.specs.Arrays.{same_bytes};
ghost use Rattle.frames.specs.Frames.{raw_of, can_id_in_range, same_id, is_entry, bus_exists, is_command};

// A CAN identifier, 11 bits wide or 29. The number is as lent, in range or not.
#[derive(Clone, Copy, PartialEq, Eq)]
pub enum Id {
    Standard(u32),
    Extended(u32),
}

// A frame received from a bus or to be sent on one. `bus` and `dlc` are as lent, with any value.
#[derive(Clone, Copy, PartialEq, Eq)]
pub struct CanFrame {
    pub bus: u8,
    pub id: Id,
    pub data: [u8; 8],
    pub dlc: u8,
}

// A frame that an identity probe may send.
#[derive(Clone, Copy, PartialEq, Eq)]
pub struct ProbeFrame {
    pub id: Id,
    pub data: [u8; 8],
}

// What a frame to send belongs to: the platform's own traffic, or the command of a phone.
// That phone's id is lent as a slice beside the class, since an enum holds no reference.
#[derive(Clone, Copy, PartialEq, Eq)]
pub enum TxClass {
    Platform,
    Command,
}

// How many buses a board drives at most.
pub const MAX_CAN_BUSES: u8 = 4;

// The number of an id, of either width.
pub fn id_raw(id: Id) -> u32
    ensures { result ≡ raw_of id }
{
    match id {
        Id::Standard(n) | Id::Extended(n) => n,
    }
}

// Whether the number fits the id's width.
pub fn can_id_in_range(id: Id) -> bool
    ensures { result ≡ can_id_in_range id }
{
    match id {
        Id::Standard(n) => n <= 0x7FF,
        Id::Extended(n) => n <= 0x1FFF_FFFF,
    }
}

// Whether two ids are equal: a standard and an extended one never are.
pub fn same_id(a: Id, b: Id) -> bool
    ensures { result ≡ same_id a b }
{
    a == b
}

// Whether all eight data bytes are equal, in the words of `is_entry`.
#[tactic(auto, using(arrays::proofs::Laws::same_is_pointwise))]
pub fn same_data(x: [u8; 8], y: [u8; 8]) -> bool
    ensures { result ≡ same_bytes x y }
{
    x == y
}

// Whether `frame` is what `entry` lets through. Its bus and its dlc are not looked at.
#[tactic(auto, using(arrays::proofs::Laws::same_is_pointwise), unfolding(crate::specs::Frames::is_entry))]
pub fn is_entry(entry: ProbeFrame, frame: CanFrame) -> bool
    ensures { result ≡ is_entry entry frame }
{
    same_id(entry.id, frame.id) && same_data(entry.data, frame.data)
}

// Whether a board has this bus.
pub fn bus_exists(bus: u8) -> bool
    ensures { result ≡ bus_exists bus }
{
    bus < MAX_CAN_BUSES
}

// Whether the frame belongs to a phone's command. Public: replay_items asks it, and definitions name it.
pub fn is_command(class: TxClass) -> bool
    ensures { result ≡ is_command class }
{
    matches!(class, TxClass::Command)
}
