// Answers a line of `mapjudge`: the call that it means is made, and its answer written.
#![tactic(auto)]

ghost use Rattle.std.specs.Prelude.{◌≡◌, ◌≤◌, length, drop};
ghost use Rattle.std.proofs.Math.Option.{none};
ghost use Rattle.limits.specs.Limits.{bytes_room};
ghost use Rattle.lines.specs.Splitting.{up_to, past};
ghost use Rattle.fields.specs.Bytes.{parse_bytes};
ghost use Rattle.maptext.specs.MappingText.{parse_mapping};
ghost use Rattle.mapcalls.specs.Calls.{reply_means};
ghost use Rattle.mapreplies.specs.Replies.{most_answer};
ghost use Rattle.maplines.specs.Lines.{run_by, build_by, ask_by, compose_fields, ask_in, line_in, changes as changesBy};
ghost use Rattle.maplines.specs.Answers.{left_by, Says, Replies, Scratch};

use mapcalls::{MapAnswer, MapState};

// How many bytes the answer to a line has, and whether it ended its list: it was malformed.
#[derive(Clone, Copy)]
pub struct Said {
    pub written: usize,
    pub ended: bool,
}

// The state that a line leaves, and its answer.
#[derive(Clone, Copy)]
pub struct Answered {
    pub state: MapState,
    pub said: Said,
}

// The answer to a malformed line.
pub fn say_malformed(out: &mut [u8]) -> Said
    requires { most_answer ≤ length out.old }
    ensures { (s : MapState) → Says s none out.old out.new result }
{
    let written = answers::put_malformed(out, 0);
    let ended = true;
    Said { written, ended }
}

// The answer to a call.
fn say_reply(out: &mut [u8], reply: MapAnswer) -> Said
    requires { most_answer ≤ length out.old }
    ensures { Replies (reply_means reply) out.old out.new result }
{
    let written = mapreplies::put_reply(out, reply);
    let ended = false;
    Said { written, ended }
}

// A field that says a chunk. The bytes go through the lent buffer; what is longer than the buffer is
// refused by its length alone, so what does not fit is not missed.
fn answer_run(state: &MapState, field: &[u8], bytes: &mut [u8], out: &mut [u8]) -> Said
    requires { (bytes_room ≤ length bytes.old) × (most_answer ≤ length out.old) }
    ensures says { Says state.now (run_by (parse_bytes field.now)) out.old out.new result }
    ensures scratch { Scratch bytes.old bytes.new }
{
    let Some(n) = fields::read_bytes(field, bytes) else {
        return say_malformed(out);
    };
    say_reply(out, mapcalls::run(state, &bytes[..n]))
}

// Two mappings, the earlier chunk's first, one space between them, from index 8 of the line on.
fn answer_compose(line: &[u8], out: &mut [u8]) -> Said
    requires { (8 ≤ length line.now) × (most_answer ≤ length out.old) }
    ensures { (s : MapState) → Says s (compose_fields (up_to 32 (drop 8 line.now)) (past 32 (drop 8 line.now))) out.old out.new result }
{
    let space = lines::find(line, 8, b' ');
    if line.len() <= space {
        return say_malformed(out);
    }
    let Some(earlier) = maptext::read_mapping(&line[8..space]) else {
        return say_malformed(out);
    };
    let from = space + 1;
    let Some(later) = maptext::read_mapping(&line[from..]) else {
        return say_malformed(out);
    };
    say_reply(out, mapcalls::compose(earlier, later))
}

// A field that says a mapping.
fn answer_verdict(state: &MapState, field: &[u8], out: &mut [u8]) -> Said
    requires { most_answer ≤ length out.old }
    ensures { Says state.now (ask_by (parse_mapping field.now)) out.old out.new result }
{
    let Some(mapping) = maptext::read_mapping(field) else {
        return say_malformed(out);
    };
    say_reply(out, mapcalls::ask(state, mapping))
}

// A field that says a rule file.
fn answer_build(state: MapState, field: &[u8], bytes: &mut [u8], out: &mut [u8]) -> Answered
    requires { (bytes_room ≤ length bytes.old) × (most_answer ≤ length out.old) }
    ensures state_value { result.state ≡ left_by state (build_by (parse_bytes field.now)) }
    ensures text { Says state (build_by (parse_bytes field.now)) out.old out.new result.said }
    ensures scratch { Scratch bytes.old bytes.new }
{
    let Some(n) = fields::read_bytes(field, bytes) else {
        let said = say_malformed(out);
        return Answered { state, said };
    };
    let building = mapcalls::build(state, &bytes[..n]);
    let said = say_reply(out, building.reply);
    let state = building.state;
    Answered { state, said }
}

// Whether a line may change which profile there is. Any other leaves the state as it is, so whoever
// keeps it need not send it through `run_line`.
pub fn changes(line: &[u8]) -> bool
    ensures { result ≡ changesBy line.now }
{
    if line.len() == 0 {
        return true;
    }
    lines::begins_with(line, b"build ")
}

// The answer to a line that leaves the profile as it is. The buffer is for the bytes that the line
// carries.
pub fn answer_line(state: &MapState, line: &[u8], bytes: &mut [u8], out: &mut [u8]) -> Said
    requires { (bytes_room ≤ length bytes.old) × (most_answer ≤ length out.old) }
    ensures says { Says state.now (ask_in line.now) out.old out.new result }
    ensures scratch { Scratch bytes.old bytes.new }
{
    if lines::begins_with(line, b"run ") {
        return answer_run(state, &line[4..], bytes, out);
    }
    if lines::begins_with(line, b"compose ") {
        return answer_compose(line, out);
    }
    if lines::begins_with(line, b"verdict ") {
        return answer_verdict(state, &line[8..], out);
    }
    say_malformed(out)
}

// Any line: its answer, and the state that it leaves.
pub fn run_line(state: MapState, line: &[u8], bytes: &mut [u8], out: &mut [u8]) -> Answered
    requires { (bytes_room ≤ length bytes.old) × (most_answer ≤ length out.old) }
    ensures state_value { result.state ≡ left_by state (line_in line.now) }
    ensures text { Says state (line_in line.now) out.old out.new result.said }
    ensures scratch { Scratch bytes.old bytes.new }
{
    if line.len() == 0 {
        let written = text::put_byte(out, 0, b'\n');
        let ended = false;
        let said = Said { written, ended };
        let state = mapcalls::fresh();
        return Answered { state, said };
    }
    if lines::begins_with(line, b"build ") {
        return answer_build(state, &line[6..], bytes, out);
    }
    let said = answer_line(&state, line, bytes, out);
    Answered { state, said }
}
