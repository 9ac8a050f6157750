// A saved record as another version, as a line of a script asks for it: what `converter` answers, with the room and the lent bytes as
// they are left.
#![tactic(auto)]

ghost use Rattle.std.specs.Prelude.{◌≡◌, ◌≤◌, length};
ghost use Rattle.converter.specs.Convert.{converted, room_of};
ghost use Rattle.replay_lines.specs.Lent.{most_lent};
ghost use Rattle.replay_page.specs.Page.{page};
ghost use Rattle.replay_page.specs.Room.{Within};
ghost use Rattle.replay_lines.specs.Table.{word_text};
ghost use Rattle.replay_conversion.specs.Conversion.{conversion_name, conversion, conversion_room};

use converter::ConversionError;
use replay_lines::fields::{Field, put_fields};
use replay_lines::key::Key;
use replay_lines::word::Word;

fn conversion_word(c: Result<usize, ConversionError>) -> Word
    ensures { word_text result ≡ conversion_name c }
{
    match c {
        Ok(_) => Word::Ok,
        Err(ConversionError::Malformed) => Word::Malformed,
        Err(ConversionError::CarTwice) => Word::CarTwice,
        Err(ConversionError::TooLarge) => Word::TooLarge,
        Err(ConversionError::ManyCars) => Word::ManyCars,
        Err(ConversionError::ShortOutput(_)) => Word::ShortOutput,
    }
}

// The room that the record needs; 0 where the refusal is another than too little of it.
fn room_of(c: Result<usize, ConversionError>) -> usize
    ensures { result ≡ room_of c }
{
    match c {
        Ok(room) | Err(ConversionError::ShortOutput(room)) => room,
        Err(_) => 0,
    }
}

// Converts into a copy of the lent bytes, and lays down what that gives.
pub fn put_conversion(out: &mut [u8], at: usize, saved: &[u8], two: bool, lent: &[u8]) -> usize
    requires { length lent.now ≤ most_lent }
    ensures { (page out.new result ≡ conversion (converted saved.now two lent.now) (page out.old at)) × Within conversion_room (conversion (converted saved.now two lent.now)) }
{
    let n = lent.len();
    let mut copy = replay_lines::lent::copy_of(lent);
    let c = converter::convert_phone_validations(saved, two, &mut copy[..n]);
    let fields = [
        Field::Word(Key::Answer, conversion_word(c)),
        Field::Number(Key::Room, room_of(c) as u64),
    ];
    let k = put_fields(out, at, b"", &fields);
    replay_lines::lent::put_output(out, k, &copy[..n])
}
