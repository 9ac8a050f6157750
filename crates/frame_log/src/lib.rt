// A log: its lines one after the other, each behind the byte 10 of the one before it.
#![tactic(auto)]

ghost use Rattle.std.specs.Prelude.{◌≡◌};
ghost use Rattle.frame_log.specs.Logs.{read_log, line_length};

use matcher::FrameLog;

// Why a log is refused. Lines count from 1.
#[derive(Clone, Copy, PartialEq, Eq)]
pub enum LogError {
    BadLine(usize),
    TimeBack(usize),
    TooManyLines,
}

// The frames of a log and their times; zeros past the count. Memory is fixed, and the matcher takes times beside the frames.
#[derive(Clone, Copy)]
pub struct ReadLog {
    pub log: FrameLog,
    pub times: [u64; 512],
}

// How many bytes the first line has: all, if no byte 10 ends it.
fn line_length(s: &[u8]) -> usize
    ensures { result ≡ line_length s.now }
{
    let end = replay_script::find(s, 0, b'\n');
    if end < s.len() { end + 1 } else { s.len() }
}

// The frames and times of a log, or the first line at fault: 36, 37, 38, in this order on one line.
pub fn read_log(s: &[u8]) -> Result<ReadLog, LogError>
    ensures { result ≡ read_log s.now }
{
    let mut frames = [frame_lines::empty_frame(); 512];
    let mut times = [0; 512];
    let mut n = 0;
    let mut last = 0;
    // A `while` over what is left: the loop keeps `lines_of` of it, and `split_inclusive` tells its pieces by their first match.
    let mut rest = s;
    while !rest.is_empty() {
        let (line, more) = rest.split_at(line_length(rest));
        let entry = frame_lines::read_line(line).ok_or(LogError::BadLine(n + 1))?;
        if entry.time < last {
            return Err(LogError::TimeBack(n + 1));
        }
        if n >= 512 {
            return Err(LogError::TooManyLines);
        }
        frames[n] = entry.frame;
        times[n] = entry.time;
        n += 1;
        last = entry.time;
        rest = more;
    }
    let log = FrameLog { frames, count: n };
    Ok(ReadLog { log, times })
}
