// What a line of a script gives, as specs/Played.antt has it by the gate's one definition, `step`: the text around a call, of a line
// that is none, and the memory in which every line fits.
#![tactic(auto)]

ghost use Rattle.std.specs.Prelude.{◌≡◌, ◌≤◌, length};
ghost use Rattle.replay_page.specs.Page.{page, text};
ghost use Rattle.replay_played.specs.Played.{begun, error_of, line_room, passed_over, too_long};

// line=N call=WORD
pub fn put_begin(out: &mut [u8], at: usize, number: u64, word: &[u8]) -> usize
    ensures { page out.new result ≡ begun number word.now (page out.old at) }
{
    let k = replay_page::put_item(out, at, b"line=", number);
    let k = replay_page::put_text(out, k, b" call=");
    replay_page::put_text(out, k, word)
}

// Why a line is no call.
pub fn put_error(out: &mut [u8], at: usize, name: usize) -> usize
    ensures { page out.new result ≡ text (error_of name) (page out.old at) }
{
    if replay_names::is_name(name) {
        replay_page::put_text(out, at, b" error=bad_items")
    } else {
        replay_page::put_text(out, at, b" error=unknown_call")
    }
}

// Whether a line is passed over: it is empty or begins with `#`.
pub fn is_passed_over(line: &[u8]) -> bool
    ensures { result ≡ passed_over line.now }
{
    line.is_empty() || line[0] == b'#'
}

// What a line that is too long to be read gives.
pub fn put_too_long(number: u64, out: &mut [u8]) -> usize
    ensures { page out.new result ≡ too_long number (page out.old 0) }
{
    let k = replay_page::put_item(out, 0, b"line=", number);
    replay_page::put_text(out, k, b" error=line_too_long\n")
}

// Memory for what a line gives. What is in it is left open: each byte that is printed is written first.
pub fn line_memory() -> [u8; 49152]
    ensures { line_room ≤ length result }
{
    [0u8; 49152]
}
