// Two logs as texts: what is read, what is answered, and its line.
ghost use Rattle.std.specs.Prelude.{◌≡◌, ◌≤◌, List, [], ◌∷◌, length, Ok, Err, MatchResult};
ghost use Rattle.ascii.specs.Ascii.{ascii};
ghost use Rattle.decimal.specs.Decimal.{decimal_of};
ghost use Rattle.log_entries.specs.Entries.{Entry};
ghost use Rattle.replay_page.specs.Page.{page, text};
ghost use Rattle.frame_lines.specs.Walk.{Laid, lay};
ghost use Rattle.frame_log.specs.Logs.{reading, log_read};
ghost use Rattle.match_logs.specs.Texts.{match_texts, fault_of, Small, log_name, words, answer_line};

use frame_log::{LogError, ReadLog};
use matcher::{Log, LogFault, Match};

// What is answered for a log that is refused.
fn fault_of(log: Log, error: LogError) -> LogFault
    ensures { result ≡ fault_of log error }
{
    match error {
        LogError::BadLine(n) => LogFault::BadLine(log, n),
        LogError::TimeBack(n) => LogFault::TimeBack(log, n),
        LogError::TooManyLines => LogFault::TooManyLines(log),
    }
}

// What a log says.
fn read(log: Log, s: &[u8]) -> Result<ReadLog, LogFault>
    ensures { MatchResult result (λ r. (es : List Entry) × (reading s.now ≡ Ok es) × (r ≡ log_read es) × (r.log.count ≤ 512)) (λ f. (e : LogError) × (reading s.now ≡ Err e) × (f ≡ fault_of log e)) }
{
    frame_log::read_log(s).map_err(|e| fault_of(log, e))
}

// The journal whole, then the recorder, then the match of both.
#[tactic(auto, unfolding(crate::specs::Texts::match_texts))]
pub fn match_texts(journal: &[u8], recorder: &[u8]) -> Result<Match, LogFault>
    ensures { result ≡ match_texts journal.now recorder.now }
{
    let j = read(Log::Journal, journal)?;
    let r = read(Log::Recorder, recorder)?;
    let sent = &j.times[..j.log.count];
    let seen = &r.times[..r.log.count];
    matcher::match_logs(j.log, sent, r.log, seen)
}

#[tactic(auto, unfolding(replay_page::specs::Page::text))]
fn put_log(out: &mut [u8], at: usize, log: Log) -> usize
    ensures { page out.new result ≡ text (log_name log) (page out.old at) }
{
    match log {
        Log::Journal => replay_page::put_text(out, at, b" log=journal"),
        Log::Recorder => replay_page::put_text(out, at, b" log=recorder"),
    }
}

// A refusal's name, the log and the line.
#[tactic(auto, unfolding(frame_lines::specs::Walk::lay, replay_page::specs::Page::item))]
fn put_fault(out: &mut [u8], name: &[u8], log: Log, line: usize) -> usize
    ensures { page out.new result ≡ lay (name.now ∷ log_name log ∷ ascii " line=" ∷ decimal_of line ∷ []) (page out.old 0) }
{
    let k = replay_page::put_text(out, 0, name);
    let k = put_log(out, k, log);
    replay_page::put_item(out, k, b" line=", line as u64)
}

#[tactic(auto, unfolding(frame_lines::specs::Walk::lay))]
fn put_over(out: &mut [u8], log: Log) -> usize
    ensures { page out.new result ≡ lay (ascii "answer=38/TooManyLines" ∷ log_name log ∷ []) (page out.old 0) }
{
    let k = replay_page::put_text(out, 0, b"answer=38/TooManyLines");
    put_log(out, k, log)
}

// The words of a refusal.
#[tactic(auto, unfolding(frame_lines::specs::Walk::lay, replay_page::specs::Page::item))]
fn put_refusal(out: &mut [u8], fault: LogFault) -> usize
    ensures { (page out.new result ≡ lay (words (Err fault)) (page out.old 0)) × Small (Err fault) }
{
    match fault {
        LogFault::BadLine(log, n) => put_fault(out, b"answer=36/BadLine", log, n),
        LogFault::TimeBack(log, n) => put_fault(out, b"answer=37/TimeBack", log, n),
        LogFault::TooManyLines(log) => put_over(out, log),
    }
}

// The words of an answer.
#[tactic(auto, unfolding(frame_lines::specs::Walk::lay, replay_page::specs::Page::item))]
fn put_words(out: &mut [u8], answer: Result<Match, LogFault>) -> usize
    ensures { (page out.new result ≡ lay (words answer) (page out.old 0)) × Small answer }
{
    match answer {
        Ok(Match::Matched) => replay_page::put_text(out, 0, b"answer=yes"),
        Ok(Match::StopsAt(n)) => replay_page::put_item(out, 0, b"answer=no line=", n as u64),
        Err(fault) => put_refusal(out, fault),
    }
}

// Writes the line of an answer over the front of `out`, and answers its length: all of it fits.
pub fn put_answer(out: &mut [u8], answer: Result<Match, LogFault>) -> usize
    requires { length out.old ≡ 64 }
    ensures { (page out.new result ≡ text (10 ∷ []) (lay (words answer) (page out.old 0))) × Laid 64 (page out.new result) (answer_line answer) }
{
    let k = put_words(out, answer);
    replay_page::put_text(out, k, b"\n")
}
