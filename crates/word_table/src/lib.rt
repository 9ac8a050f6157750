// A table as one text, a row to a line, in each row words with single spaces between them; the first is the row's name.
#![tactic(auto)]

ghost use Rattle.std.specs.Prelude.{◌≡◌, [], ◌∷◌, ◌+◌, ◌<◌, length, drop, get_or, MatchOption, IfSome};
ghost use Rattle.word_table.specs.Words.{before, name_of, lines_of, place_in};
ghost use Rattle.arrays.specs.Arrays.{same_bytes};

// Where the first `b` stands from `at` on, or the text ends.
pub fn end_of(text: &[u8], at: usize, b: u8) -> usize
    ensures { result ≡ at + before b (drop at text.now) }
{
    for i in at..text.len() {
        if text[i] == b {
            return i;
        }
    }
    at.max(text.len())
}

// The first piece, which ends before `b` or with the text, and what stands behind that `b`.
pub fn first_piece(text: &[u8], b: u8) -> Option<(&[u8], &[u8])>
    ensures pieces { MatchOption result (text.now ≡ []) (λ p. lines_of b text.now ≡ p.0.now ∷ lines_of b p.1.now) }
    ensures shorter { IfSome result (λ p. length p.1.now < length text.now) }
{
    if text.is_empty() {
        return None;
    }
    let end = end_of(text, 0, b);
    let behind = (end + 1).min(text.len());
    Some((&text[..end], &text[behind..]))
}

pub fn is_named(row: &[u8], word: &[u8]) -> bool
    ensures { result ≡ same_bytes word.now (name_of row.now) }
{
    let end = end_of(row, 0, b' ');
    arrays::same_bytes(word, &row[..end])
}

// The place of the row of this name, or the number of rows.
pub fn place_in(text: &[u8], word: &[u8]) -> usize
    ensures { result ≡ place_in (lines_of 10 text.now) word.now }
{
    // The library has no iterator that gives `first_piece`'s pieces, so the rows are counted here.
    let mut n = 0;
    let mut rows = text;
    while let Some((row, rest)) = first_piece(rows, b'\n') {
        if is_named(row, word) {
            return n;
        }
        rows = rest;
        n += 1;
    }
    n
}

// The row at a place; past the last row it is empty.
pub fn row_at(text: &[u8], n: usize) -> &[u8]
    ensures { result.now ≡ get_or (lines_of 10 text.now) n [] }
{
    let mut rows = text;
    for _ in 0..n {
        match first_piece(rows, b'\n') {
            Some((_, rest)) => rows = rest,
            None => return rows,
        }
    }
    match first_piece(rows, b'\n') {
        Some((row, _)) => row,
        None => rows,
    }
}
