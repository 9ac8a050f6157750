// The calls of the gate as the benchmark runs them (docs/BENCHMARKS.md): many times over, on a gate that is held here, since
// an enum, and so a gate, does not cross to C or Rust. Each round gives a sum over what was answered and raised. The crate
// bench_calls_c exports them.
#![tactic(auto)]

pub mod held;
pub mod seen;

ghost use Rattle.std.specs.Prelude.{◌≡◌, is_some, unwrap_or, replicate};
ghost use Rattle.car_digest.specs.CarDigest.{car_digest};
ghost use Rattle.bench_calls.specs.Held.{ready, frame, class_of};
ghost use Rattle.bench_calls.specs.Rounds as Rounds;
ghost use Rattle.bench_calls.specs.Rounds.{tried, sum_of, sum_lent};

use held::Run;
use state::{Answer, Gate, Outcome};

// The digest of a car, written to `out`; zeros and no above 4,096 bytes.
pub fn timed_digest(platform: u32, fingerprint: &[u8], out: &mut [u8; 32]) -> bool
    ensures { (result ≡ is_some (car_digest platform fingerprint.now)) × (out.new ≡ unwrap_or (car_digest platform fingerprint.now) (replicate 32 0)) }
{
    let digest = car_digest::car_digest(platform, fingerprint);
    *out = digest.unwrap_or([0; 32]);
    digest.is_some()
}

// A query raises nothing.
fn encoded(r: Run, i: u64) -> Run
    ensures { result ≡ Rounds.encoded r i }
{
    let a = queries::encode_phone_validations(r.gate);
    Run {
        sum: seen::add(r.sum, seen::record_byte(a.stored, i)),
        ..r
    }
}

// ---- the rounds: a loop each, as the calls differ in what they are lent and give, and nothing beside them is to be timed

// `n` starts, each in the place of the one before it.
pub fn timed_starts(
    n: u64,
    car: &[u8; 32],
    bytes: &[u8],
    phone: &[u8],
    method: &[u8],
    random: &[u8],
) -> u32
    ensures { result ≡ sum_of (Rounds.started phone.now method.now random.now) (ready car.now bytes.now method.now) n }
{
    let mut g = held::ready(*car, bytes, method);
    let mut sum = 0;
    for i in 0..n {
        let o = gate_sessions::start_validation(g, phone, method, i, random);
        sum = seen::after(sum, o, i);
        g = o.gate;
    }
    sum
}

// `n` times a start and a typed code.
pub fn timed_submits(
    n: u64,
    car: &[u8; 32],
    bytes: &[u8],
    phone: &[u8],
    method: &[u8],
    random: &[u8],
    typed: &[u8],
) -> u32
    ensures { result ≡ sum_of (tried phone.now method.now random.now typed.now) (ready car.now bytes.now method.now) n }
{
    let mut g = held::ready(*car, bytes, method);
    let mut sum = 0;
    for i in 0..n {
        let o = gate_sessions::start_validation(g, phone, method, i, random);
        sum = seen::after(sum, o, i);
        let p = gate_sessions::submit_validation_code(o.gate, phone, typed, i);
        sum = seen::after(sum, p, i);
        g = p.gate;
    }
    sum
}

// `n` frames, each of the platform's or each of a command of `owner`.
pub fn timed_allows(
    n: u64,
    car: &[u8; 32],
    bytes: &[u8],
    method: &[u8],
    command: bool,
    owner: &[u8],
) -> u32
    ensures { result ≡ sum_of (Rounds.allowed frame (class_of command) owner.now) (ready car.now bytes.now method.now) n }
{
    let mut g = held::ready(*car, bytes, method);
    let mut sum = 0;
    let frame = held::frame();
    let class = held::class_of(command);
    for i in 0..n {
        let o = gate_frames::allow_can_tx(g, frame.bus, frame, class, owner, i);
        sum = seen::after(sum, o, i);
        g = o.gate;
    }
    sum
}

// `n` frames sent, each where none waits.
pub fn timed_sends(
    n: u64,
    car: &[u8; 32],
    bytes: &[u8],
    method: &[u8],
    command: bool,
    owner: &[u8],
) -> u32
    ensures { result ≡ sum_lent (Rounds.sent_first frame (class_of command) owner.now) (ready car.now bytes.now method.now) n }
{
    let mut g = held::ready(*car, bytes, method);
    let mut all = held::list();
    let mut sum = 0;
    let frame = held::frame();
    let class = held::class_of(command);
    for i in 0..n {
        let s = gate_queue::send_sixteen(g, all, frame, class, owner);
        let o = s.outcome;
        sum = seen::after(sum, o, i);
        all = s.all;
        g = held::emptied(o.gate);
    }
    sum
}

// `n` frames, each sent and then served.
pub fn timed_serves(
    n: u64,
    car: &[u8; 32],
    bytes: &[u8],
    method: &[u8],
    command: bool,
    owner: &[u8],
) -> u32
    ensures { result ≡ sum_lent (Rounds.passed frame (class_of command) owner.now) (ready car.now bytes.now method.now) n }
{
    let mut g = held::ready(*car, bytes, method);
    let mut all = held::list();
    let mut sum = 0;
    let frame = held::frame();
    let class = held::class_of(command);
    for i in 0..n {
        let s = gate_queue::send_sixteen(g, all, frame, class, owner);
        let o = s.outcome;
        sum = seen::after(sum, o, i);
        let d = gate_queue::serve_sixteen(o.gate, s.all, 1, i);
        sum = seen::after_run(sum, d.ran, i);
        all = d.all;
        g = d.ran.outcome.gate;
    }
    sum
}

// `n` times the record restored.
pub fn timed_restores(n: u64, car: &[u8; 32], bytes: &[u8], method: &[u8]) -> u32
    ensures { result ≡ sum_of (Rounds.restored bytes.now) (ready car.now bytes.now method.now) n }
{
    let mut g = held::ready(*car, bytes, method);
    let mut sum = 0;
    for i in 0..n {
        let o = gate_phones::restore_phone_validations(g, bytes);
        sum = seen::after(sum, o, i);
        g = o.gate;
    }
    sum
}

// The least that a call does: the gate comes out, with other digits, and an answer and signals beside it.
fn least(g: Gate, i: u64) -> Outcome
    ensures { result ≡ Rounds.least g i }
{
    let code = [(i % 256) as u8; 9];
    Outcome {
        answer: Answer::Done,
        signals: state::replies::no_signals(),
        gate: Gate { code, ..g },
    }
}

// `n` times the least that a call does: the floor of the rows above.
pub fn timed_floors(n: u64, car: &[u8; 32], bytes: &[u8], method: &[u8]) -> u32
    ensures { result ≡ sum_of Rounds.floored (ready car.now bytes.now method.now) n }
{
    let mut g = held::ready(*car, bytes, method);
    let mut sum = 0;
    for i in 0..n {
        let o = least(g, i);
        sum = seen::after(sum, o, i);
        g = o.gate;
    }
    sum
}

// `n` times the record written.
pub fn timed_encodes(n: u64, car: &[u8; 32], bytes: &[u8], method: &[u8]) -> u32
    ensures { result ≡ sum_of Rounds.encoded (ready car.now bytes.now method.now) n }
{
    let gate = held::ready(*car, bytes, method);
    let mut r = Run { gate, sum: 0 };
    for i in 0..n {
        r = encoded(r, i);
    }
    r.sum
}
