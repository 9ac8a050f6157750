// A gate's journal against a bus recorder: whether the recorded frames can be given different entries of the journal. The frames of
// a log stand in the first `count` places of its array, and the rest is not looked at. Times are lent beside the frames.
#![tactic(auto)]

ghost use Rattle.std.specs.Prelude.{◌≡◌, ℕ, ◌≤◌, true, false, cond, length, zip, MatchResult};
ghost use Rattle.std.specs.List.{position_from};
ghost use Rattle.log_entries.specs.Entries.{entry, fits};
ghost use Rattle.matcher.specs.Match.{paired, wrong_size, first_fall, number_of, fault_number, match_of};
ghost use Rattle.matcher.specs.Greedy.{free_in, first_fit, greedy, Sized};

use frames::CanFrame;

// Memory is fixed: an array with its count, as a log is lent to match_logs.
#[derive(Clone, Copy)]
pub struct FrameLog {
    pub frames: [CanFrame; 512],
    pub count: usize,
}

#[derive(Clone, Copy, PartialEq, Eq)]
pub enum Log {
    Journal,
    Recorder,
}

// Whether a journal explains a recorder; if not, the number, from 1, of the first recorded frame at which a match stops being possible.
#[derive(Clone, Copy, PartialEq, Eq)]
pub enum Match {
    Matched,
    StopsAt(usize),
}

// Why two logs are not matched. Lines count from 1.
#[derive(Clone, Copy, PartialEq, Eq)]
pub enum LogFault {
    BadLine(Log, usize),
    TimeBack(Log, usize),
    TooManyLines(Log),
}

impl LogFault {
    // The number of a refusal.
    pub fn number(self) -> u8
        ensures { result ≡ fault_number self }
    {
        match self {
            LogFault::BadLine(_, _) => 36,
            LogFault::TimeBack(_, _) => 37,
            LogFault::TooManyLines(_) => 38,
        }
    }
}

// The number of an answer: 0 for yes and no, and that of a refusal.
pub fn answer_number(answer: Result<Match, LogFault>) -> u8
    ensures { result ≡ number_of answer }
{
    match answer {
        Ok(_) => 0,
        Err(fault) => fault.number(),
    }
}

// The first place whose entry fits and is not taken yet, of the entries and their marks side by side.
fn first_place(
    journal: &[CanFrame],
    sent: &[u64],
    used: &[bool],
    f: CanFrame,
    seen: u64,
) -> Option<usize>
    ensures { result ≡ position_from (λ p. cond p.1 false (fits (entry p.0.1 p.0.0) (entry seen f))) 0 (zip (zip journal.now sent.now) used.now) }
{
    let mut entries = journal.iter().zip(sent).zip(used);
    entries.position(|((j, t), taken)| !*taken && log_entries::is_fit(*j, *t, f, seen))
}

// The first place of the journal that is free and fits.
#[tactic(auto, using(crate::proofs::Steps::fit_is, crate::proofs::Steps::fit_cut))]
fn first_fit(
    journal: &[CanFrame],
    sent: &[u64],
    used: &[bool; 512],
    f: CanFrame,
    seen: u64,
) -> Option<usize>
    requires { Sized journal.now sent.now }
    ensures { result ≡ first_fit (paired sent.now journal.now) (free_in used.now) (entry seen f) }
{
    first_place(journal, sent, used, f, seen)
}

// Each recorded frame in turn is given the first entry that is free and fits.
fn assign(journal: &[CanFrame], sent: &[u64], recorder: &[CanFrame], seen: &[u64]) -> Match
    requires { Sized journal.now sent.now × Sized recorder.now seen.now }
    ensures { result ≡ greedy (paired sent.now journal.now) (paired seen.now recorder.now) }
{
    let mut used = [false; 512];
    for (i, f) in recorder.iter().enumerate() {
        let Some(e) = first_fit(journal, sent, &used, *f, seen[i]) else {
            return Match::StopsAt(i + 1);
        };
        used[e] = true;
    }
    Match::Matched
}

// The number, from 1, of the first time that is below the one before it.
fn first_fall(times: &[u64]) -> Option<usize>
    ensures { result ≡ first_fall times.now }
{
    let mut last = 0;
    for (i, t) in times.iter().enumerate() {
        if *t < last {
            return Some(i + 1);
        }
        last = *t;
    }
    None
}

// A log has at most 512 frames, and as many times.
#[tactic(auto, unfolding(crate::specs::Match::wrong_size))]
fn check_size(log: Log, count: usize, times: &[u64]) -> Result<(), LogFault>
    ensures { MatchResult result (λ _. (wrong_size count times.now ≡ false) × (count ≤ 512) × (count ≡ length times.now)) (λ e. (wrong_size count times.now ≡ true) × (e ≡ LogFault.TooManyLines log)) }
{
    if count > 512 || count != times.len() {
        return Err(LogFault::TooManyLines(log));
    }
    Ok(())
}

// The times of a log never fall.
fn check_times(log: Log, times: &[u64]) -> Result<(), LogFault>
    ensures { MatchResult result (λ _. first_fall times.now ≡ None) (λ e. (line : ℕ) × (first_fall times.now ≡ Some line) × (e ≡ LogFault.TimeBack log line)) }
{
    match first_fall(times) {
        Some(line) => Err(LogFault::TimeBack(log, line)),
        None => Ok(()),
    }
}

// Yes, or the line number of the first recorded frame at which a match stops being possible; 38 and 37 first.
#[tactic(auto, unfolding(crate::specs::Match::match_of))]
pub fn match_logs(
    journal: FrameLog,
    journal_times: &[u64],
    recorder: FrameLog,
    recorder_times: &[u64],
) -> Result<Match, LogFault>
    ensures { result ≡ match_of journal journal_times.now recorder recorder_times.now }
{
    check_size(Log::Journal, journal.count, journal_times)?;
    check_size(Log::Recorder, recorder.count, recorder_times)?;
    check_times(Log::Journal, journal_times)?;
    check_times(Log::Recorder, recorder_times)?;
    let journal_frames = &journal.frames[..journal.count];
    let recorder_frames = &recorder.frames[..recorder.count];
    Ok(assign(
        journal_frames,
        journal_times,
        recorder_frames,
        recorder_times,
    ))
}
