// What C and Rust call of the crate bench_calls: each export calls its function there and says the same of its result.
#![tactic(auto)]

ghost use Rattle.std.specs.Prelude.{◌≡◌, is_some, unwrap_or, replicate};
ghost use Rattle.car_digest.specs.CarDigest.{car_digest};
ghost use Rattle.bench_calls.specs.Held.{ready, frame, class_of};
ghost use Rattle.bench_calls.specs.Rounds as Rounds;
ghost use Rattle.bench_calls.specs.Rounds.{tried, sum_of, sum_lent};

// The digest of a car, written to `out`; zeros and no above 4,096 bytes.
#[unsafe(no_mangle)]
pub extern "C" fn timed_digest(platform: u32, fingerprint: &[u8], out: &mut [u8; 32]) -> bool
    ensures { (result ≡ is_some (car_digest platform fingerprint.now)) × (out.new ≡ unwrap_or (car_digest platform fingerprint.now) (replicate 32 0)) }
{
    bench_calls::timed_digest(platform, fingerprint, out)
}

// `n` starts, each in the place of the one before it.
#[unsafe(no_mangle)]
pub extern "C" fn timed_starts(
    n: u64,
    car: &[u8; 32],
    bytes: &[u8],
    phone: &[u8],
    method: &[u8],
    random: &[u8],
) -> u32
    ensures { result ≡ sum_of (Rounds.started phone.now method.now random.now) (ready car.now bytes.now method.now) n }
{
    bench_calls::timed_starts(n, car, bytes, phone, method, random)
}

// `n` times a start and a typed code.
#[unsafe(no_mangle)]
pub extern "C" fn timed_submits(
    n: u64,
    car: &[u8; 32],
    bytes: &[u8],
    phone: &[u8],
    method: &[u8],
    random: &[u8],
    typed: &[u8],
) -> u32
    ensures { result ≡ sum_of (tried phone.now method.now random.now typed.now) (ready car.now bytes.now method.now) n }
{
    bench_calls::timed_submits(n, car, bytes, phone, method, random, typed)
}

// `n` frames, each of the platform's or each of a command of `owner`.
#[unsafe(no_mangle)]
pub extern "C" fn timed_allows(
    n: u64,
    car: &[u8; 32],
    bytes: &[u8],
    method: &[u8],
    command: bool,
    owner: &[u8],
) -> u32
    ensures { result ≡ sum_of (Rounds.allowed frame (class_of command) owner.now) (ready car.now bytes.now method.now) n }
{
    bench_calls::timed_allows(n, car, bytes, method, command, owner)
}

// `n` frames sent, each where none waits.
#[unsafe(no_mangle)]
pub extern "C" fn timed_sends(
    n: u64,
    car: &[u8; 32],
    bytes: &[u8],
    method: &[u8],
    command: bool,
    owner: &[u8],
) -> u32
    ensures { result ≡ sum_lent (Rounds.sent_first frame (class_of command) owner.now) (ready car.now bytes.now method.now) n }
{
    bench_calls::timed_sends(n, car, bytes, method, command, owner)
}

// `n` frames, each sent and then served.
#[unsafe(no_mangle)]
pub extern "C" fn timed_serves(
    n: u64,
    car: &[u8; 32],
    bytes: &[u8],
    method: &[u8],
    command: bool,
    owner: &[u8],
) -> u32
    ensures { result ≡ sum_lent (Rounds.passed frame (class_of command) owner.now) (ready car.now bytes.now method.now) n }
{
    bench_calls::timed_serves(n, car, bytes, method, command, owner)
}

// `n` times the record restored.
#[unsafe(no_mangle)]
pub extern "C" fn timed_restores(n: u64, car: &[u8; 32], bytes: &[u8], method: &[u8]) -> u32
    ensures { result ≡ sum_of (Rounds.restored bytes.now) (ready car.now bytes.now method.now) n }
{
    bench_calls::timed_restores(n, car, bytes, method)
}

// `n` times the least that a call does: the floor of the rows above.
#[unsafe(no_mangle)]
pub extern "C" fn timed_floors(n: u64, car: &[u8; 32], bytes: &[u8], method: &[u8]) -> u32
    ensures { result ≡ sum_of Rounds.floored (ready car.now bytes.now method.now) n }
{
    bench_calls::timed_floors(n, car, bytes, method)
}

// `n` times the record written.
#[unsafe(no_mangle)]
pub extern "C" fn timed_encodes(n: u64, car: &[u8; 32], bytes: &[u8], method: &[u8]) -> u32
    ensures { result ≡ sum_of Rounds.encoded (ready car.now bytes.now method.now) n }
{
    bench_calls::timed_encodes(n, car, bytes, method)
}
