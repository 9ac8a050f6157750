// A printed line as a list of fields, each a key and a value.
ghost use Rattle.std.specs.Prelude.{◌≡◌};
ghost use Rattle.replay_page.specs.Page.{page, text};
ghost use Rattle.replay_lines.specs.Table.{key_text, word_text};
ghost use Rattle.replay_lines.specs.Fields.{put_field, put_fields};

use crate::key::Key;
use crate::word::Word;

// The key, then the value. `Key` has no value: a list stands behind it.
// Bytes: the first n lent bytes. Digits: the same, or `-` for none. Known: the lent bytes, or `none`.
#[derive(Clone, Copy)]
pub enum Field {
    Key(Key),
    Number(Key, u64),
    Flag(Key, bool),
    Word(Key, Word),
    Bytes(Key, usize),
    Digits(Key, usize),
    Known(Key, bool),
}

fn put_key(out: &mut [u8], at: usize, k: Key) -> usize
    ensures { page out.new result ≡ text (key_text k) (page out.old at) }
{
    replay_page::put_text(out, at, k.text())
}

pub fn put_word(out: &mut [u8], at: usize, w: Word) -> usize
    ensures { page out.new result ≡ text (word_text w) (page out.old at) }
{
    replay_page::put_text(out, at, w.text())
}

#[tactic(auto, unfolding(replay_page::specs::Page::flag, replay_page::specs::Page::item, replay_page::specs::Page::word))]
pub fn put_field(out: &mut [u8], at: usize, lent: &[u8], f: Field) -> usize
    ensures { page out.new result ≡ put_field lent.now f (page out.old at) }
{
    match f {
        Field::Key(k) => put_key(out, at, k),
        Field::Number(k, n) => replay_page::put_item(out, at, k.text(), n),
        Field::Flag(k, b) => replay_page::put_flag(out, at, k.text(), b),
        Field::Word(k, w) => {
            let i = put_key(out, at, k);
            put_word(out, i, w)
        }
        Field::Bytes(k, n) => {
            let i = put_key(out, at, k);
            replay_page::put_first(out, i, lent, n)
        }
        Field::Digits(k, n) => {
            let i = put_key(out, at, k);
            replay_page::put_digits(out, i, lent, n)
        }
        Field::Known(k, b) => {
            let i = put_key(out, at, k);
            replay_page::put_known(out, i, lent, b)
        }
    }
}

// The fields of a line; `lent` has the bytes of those that print bytes.
pub fn put_fields(out: &mut [u8], at: usize, lent: &[u8], fields: &[Field]) -> usize
    ensures { page out.new result ≡ put_fields lent.now fields.now (page out.old at) }
{
    let mut k = at;
    for f in fields {
        k = put_field(out, k, lent, *f);
    }
    k
}
