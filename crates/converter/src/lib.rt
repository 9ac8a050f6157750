// Records for older packs: a saved record as version 1 or as version 2, whichever it is. No call on the gate: it takes none.
#![tactic(auto)]

ghost use Rattle.std.specs.Prelude.{◌≡◌, ◌++◌, ◌+◌, ◌≤◌, length};
ghost use Rattle.converter.specs.Convert.{conversion_error, outcome_of, laid_down, converted};
ghost use Rattle.converter.specs.Steps.{Accepted};

use saved_record::RecordError;
use std::error::Error;
use std::fmt;

// Why a record is not converted. ShortOutput has the room that the record needs.
#[derive(Clone, Copy, Debug, PartialEq, Eq)]
pub enum ConversionError {
    Malformed,
    CarTwice,
    TooLarge,
    ManyCars,
    ShortOutput(usize),
}

// The number of the refusal, and its name.
impl fmt::Display for ConversionError {
    fn fmt<W: fmt::Write>(&self, f: &mut fmt::Formatter<W>) -> fmt::Result {
        f.write_str(match self {
            ConversionError::Malformed => "22/Malformed",
            ConversionError::CarTwice => "28/CarTwice",
            ConversionError::TooLarge => "23/TooLarge",
            ConversionError::ManyCars => "29/ManyCars",
            ConversionError::ShortOutput(_) => "30/ShortOutput",
        })
    }
}

impl Error for ConversionError {}

impl From<RecordError> for ConversionError {
    ghost from_gives = { λ e given. given ≡ conversion_error e };

    fn from(e: RecordError) -> ConversionError {
        match e {
            RecordError::Malformed => ConversionError::Malformed,
            RecordError::CarTwice => ConversionError::CarTwice,
            RecordError::TooLarge => ConversionError::TooLarge,
        }
    }
}

// Lays down a record, its head and then its body, where there is room for both, and tells its length.
#[tactic(auto, using(crate::proofs::Laws::too_long, crate::proofs::Laws::laid))]
fn put_record(head: &[u8], body: &[u8], out: &mut [u8]) -> Result<usize, ConversionError>
    requires { length head.now + length body.now ≤ 4358 }
    ensures { outcome_of result out.new ≡ laid_down (head.now ++ body.now) out.old }
{
    let room = head.len() + body.len();
    if out.len() < room {
        return Err(ConversionError::ShortOutput(room));
    }
    arrays::put(out, 0, head);
    arrays::put(out, head.len(), body);
    Ok(room)
}

// Lays down a record that restore accepts, with this many cars. The versions differ in the head alone: 1, or 2 and the number of cars.
#[tactic(auto, using(crate::proofs::Laws::record_long, crate::proofs::Laws::record_short, crate::proofs::Laws::record_longer, crate::proofs::Laws::one_as_two, crate::proofs::Laws::two_as_two, crate::proofs::Laws::one_as_one, crate::proofs::Laws::two_as_one, crate::proofs::Laws::many_cars_lem))]
fn put_accepted(
    saved: &[u8],
    cars: usize,
    two: bool,
    out: &mut [u8],
) -> Result<usize, ConversionError>
    requires { Accepted saved.now cars }
    ensures { outcome_of result out.new ≡ converted saved.now two out.old }
{
    match (two, saved[0]) {
        (true, 1) => put_record(b"\x02\x01", &saved[1..], out),
        (true, _) => put_record(b"\x02", &saved[1..], out),
        (false, _) if 1 < cars => Err(ConversionError::ManyCars),
        (false, 1) => put_record(b"\x01", &saved[1..], out),
        (false, _) => put_record(b"\x01", &saved[2..], out),
    }
}

// Judges a record as restore does, and lays it down in `out` as version 2, or as version 1. Told is how many bytes it has as that. A
// refusal leaves `out` as it is.
#[tactic(auto, using(crate::proofs::Laws::accepted, crate::proofs::Laws::refused_as))]
pub fn convert_phone_validations(
    saved: &[u8],
    two: bool,
    out: &mut [u8],
) -> Result<usize, ConversionError>
    ensures { outcome_of result out.new ≡ converted saved.now two out.old }
{
    let store = decode_record::decode_phone_validations(saved)?;
    put_accepted(saved, store.count, two, out)
}
