// Replays a recorded list of calls on a fresh judge and answers the verdict after them.
#![tactic(auto)]

ghost use Rattle.std.specs.Prelude.{◌≡◌, ◌+◌, ◌≤◌, min, length};
ghost use Rattle.limits.specs.Limits.{bytes_room};
ghost use Rattle.callrun.specs.Running.{Scratch};
ghost use Rattle.replay.specs.Records.{record_in, replay_means, replay_of};

use calls::Report;

// Where the line after the one that ends there begins, within the text.
fn past(end: usize, most: usize) -> usize
    ensures { result ≡ min (end + 1) most }
{
    if end < most { end + 1 } else { most }
}

// The buffer is for the bytes that a line carries.
fn replay_by(text: &[u8], buffer: &mut [u8]) -> Result<Report, usize>
    requires { bytes_room ≤ length buffer.old }
    ensures result_value { replay_means result ≡ replay_of (record_in text.now) }
    ensures scratch { Scratch buffer.old buffer.new }
{
    let mut judge = judge::new_judge();
    let mut line: usize = 0;
    let mut at: usize = 0;
    while at < text.len() {
        let end = lines::find(text, at, b'\n');
        let run = callrun::run_line(judge, &text[at..end], buffer);
        line += 1;
        if calltext::is_malformed(run.answer) {
            return Err(line);
        }
        judge = run.judge;
        at = past(end, text.len());
    }
    Ok(judge::ask_verdict(judge))
}

// Runs the calls that the text records, a line each, and answers the verdict after them, or the
// number of the first malformed line.
pub fn replay(text: &[u8]) -> Result<Report, usize>
    ensures { replay_means result ≡ replay_of (record_in text.now) }
{
    let mut buffer = [0u8; limits::BYTES];
    replay_by(text, &mut buffer)
}
