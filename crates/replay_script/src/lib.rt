// Reading a line of a script: the name of a call, then items `key=value`, each behind one space.
#![tactic(auto)]

ghost use Rattle.std.specs.Prelude.{◌≡◌, ◌+◌, length, drop};
ghost use Rattle.replay_script.specs.Words.{items_of};
ghost use Rattle.word_table.specs.Words.{before};
ghost use Rattle.replay_script.specs.Places.{has_key, Next, item_of, first_of, Only};

// A part of a line, from `start` to before `end`.
#[derive(Clone, Copy)]
pub struct Span {
    pub start: usize,
    pub end: usize,
}

// The place of the first `b` at or after `from`; the end if there is none. Public: replay and frame_lines call it.
pub fn find(s: &[u8], from: usize, b: u8) -> usize
    ensures { result ≡ from + before b (drop from s.now) }
{
    word_table::end_of(s, from, b)
}

// The place after the call's name.
pub fn name_end(line: &[u8]) -> usize
    ensures { result ≡ before 32 line.now }
{
    find(line, 0, b' ')
}

// How many items there are, of their form or not.
pub fn items(line: &[u8]) -> usize
    ensures { result ≡ length (items_of line.now) }
{
    line.iter().filter(|b| **b == b' ').count()
}

// Whether a word is the key, `=` and anything.
#[tactic(auto, unfolding(crate::specs::Places::has_key))]
fn has_key(word: &[u8], key: &[u8]) -> bool
    ensures { result ≡ has_key key.now word.now }
{
    let n = key.len();
    n < word.len() && word[n] == b'=' && arrays::same_bytes(&word[..n], key)
}

// The value of the next item with this key behind the word at `from`.
pub fn next(line: &[u8], from: usize, key: &[u8]) -> Option<Span>
    ensures { Next line.now from key.now result }
{
    let mut at = find(line, from, b' ');
    // No `for`: the place goes on by words, not by ones.
    while at < line.len() {
        let word = at + 1;
        let end = find(line, word, b' ');
        if has_key(&line[word..end], key) {
            let start = word + key.len() + 1;
            return Some(Span { start, end });
        }
        at = end;
    }
    None
}

// The value of the only item with this key.
#[tactic(auto, unfolding(crate::specs::Places::item_of))]
pub fn item(line: &[u8], key: &[u8]) -> Option<Span>
    ensures { Only line.now key.now result }
{
    let first = next(line, 0, key)?;
    match next(line, first.end, key) {
        Some(_) => None,
        None => Some(first),
    }
}

// Its bytes; none if there is no such item.
#[tactic(auto, unfolding(crate::specs::Places::first_of))]
pub fn value<'a>(line: &'a [u8], key: &[u8]) -> &'a [u8]
    ensures { result.now ≡ first_of (item_of key.now line.now) }
{
    match item(line, key) {
        Some(v) => &line[v.start..v.end],
        None => &line[..0],
    }
}
