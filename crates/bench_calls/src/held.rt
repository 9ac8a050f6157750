// The gate that a round runs on.
ghost use Rattle.std.specs.Prelude.{◌≡◌};
ghost use Rattle.bench_calls.specs.Held.{class_of, writable, opened};
ghost use Rattle.bench_calls.specs.Held as Held;

use frames::{CanFrame, Id, TxClass};
use phones::ShortId;
use state::{Access, Buses, Car, Gate, Identity, Kind, Method, Phones, Policy, Queue, Settings};
use waiting_list::Waiting;

const NO_ID: ShortId = ShortId {
    bytes: [0; 32],
    len: 0,
};

// A gate, and the sum so far.
#[derive(Clone, Copy)]
pub struct Run {
    pub gate: Gate,
    pub sum: u32,
}

pub fn class_of(command: bool) -> TxClass
    ensures { result ≡ class_of command }
{
    if command {
        TxClass::Command
    } else {
        TxClass::Platform
    }
}

pub fn frame() -> CanFrame
    ensures { result ≡ Held.frame }
{
    CanFrame {
        bus: 1,
        id: Id::Standard(0x123),
        data: [0x11; 8],
        dlc: 8,
    }
}

// The car identified and approved, the gate read-write.
fn policy(digest: [u8; 32]) -> Policy
    ensures { result ≡ writable digest }
{
    let car = Car {
        known: true,
        digest,
    };
    Policy {
        identity: Identity {
            platform: 7,
            confirmed: true,
            car,
        },
        access: Access {
            approval: car,
            unlocked: true,
            production: false,
        },
        buses: Buses {
            vehicle_read_only: false,
            logging: false,
            fd: [false; 4],
        },
    }
}

fn open(g: Gate, digest: [u8; 32]) -> Gate
    ensures { result ≡ opened g digest }
{
    let validated = validations::phones_for(g.phones.store, digest);
    Gate {
        core: state::parts::with_policy(g.core, policy(digest)),
        phones: Phones {
            paired: phones::canonical(validated),
            ..g.phones
        },
        ..g
    }
}

// The phones of the record are paired and validated; `method` is the id of a code entry method.
pub fn ready(digest: [u8; 32], bytes: &[u8], method: &[u8]) -> Gate
    ensures { result ≡ Held.ready digest bytes.now method.now }
{
    let m = Method {
        id: phones::make_id(method).unwrap_or(NO_ID),
        kind: Kind::CodeEntry,
        needs_approval: true,
    };
    let settings = Settings {
        digits: 4,
        tries: 3,
        session: 60_000,
        cooldown: 0,
        keep: 10_000,
        bonded: 32,
    };
    let fresh = gate_sessions::new_gate(settings, [m; 8], 1);
    let o = gate_phones::restore_phone_validations(fresh.gate, bytes);
    open(o.gate, digest)
}

// A list in which no frame waits.
pub fn list() -> [Waiting; 16]
    ensures { result ≡ Held.list }
{
    let one = Waiting {
        frame: frame(),
        class: TxClass::Platform,
        owner: NO_ID,
    };
    [one; 16]
}

// The gate with no frame waiting, as a new gate has none.
pub fn emptied(mut g: Gate) -> Gate
    ensures { result ≡ Held.emptied g }
{
    g.queue = Queue { count: 0, last: 3 };
    g
}
