// The judge: the calls over one state. A load reads a file and installs its rule.
#![tactic(auto)]

ghost use Rattle.std.specs.Prelude.{◌≡◌, ◌<◌};
ghost use Rattle.base.specs.Answers.{refusal_number};
ghost use Rattle.calls.specs.Replies.{refused, report_means, install_outcome, call_outcome, deliver_outcome};
ghost use Rattle.calls.specs.mirror.Steps.{fresh, with_board, install_of, load_of, open_of, deliver_of, withdraw_of, report_of};

use automaton::Rule;
use base::Refusal;
use board::Board;
use calls::{CallResult, DeliverResult, InstallResult, Judge, Report, Sizes};

// A judge with no rule and no board.
pub fn new_judge() -> Judge
    ensures { result ≡ fresh }
{
    let built = build::nothing_built();
    let board = board::empty_board(0);
    Judge { built, board }
}

// The same rule with another board.
fn with_board(judge: Judge, board: Board) -> Judge
    ensures { result ≡ with_board judge board }
{
    let built = judge.built;
    Judge { built, board }
}

fn refuse_rule(judge: Judge, refusal: Refusal) -> InstallResult
    ensures { install_outcome result ≡ record { reply = refused (refusal_number refusal); state = judge } }
{
    InstallResult {
        answer: Err(refusal),
        judge,
    }
}

fn refuse_call(judge: Judge, refusal: Refusal) -> CallResult
    ensures { call_outcome result ≡ record { reply = refused (refusal_number refusal); state = judge } }
{
    CallResult {
        answer: Err(refusal),
        judge,
    }
}

fn refuse_delivery(judge: Judge, refusal: Refusal) -> DeliverResult
    ensures { deliver_outcome result ≡ record { reply = refused (refusal_number refusal); state = judge } }
{
    DeliverResult {
        answer: Err(refusal),
        judge,
    }
}

// Checks and builds a rule, which may be any value. Accepted, it replaces the former rule and
// removes the board.
pub fn install(judge: Judge, rule: Rule) -> InstallResult
    ensures { install_outcome result ≡ install_of judge rule }
{
    if let Err(refusal) = rulecheck::check_rule(rule) {
        return refuse_rule(judge, refusal);
    }
    match build::build_rule(rule) {
        Err(refusal) => refuse_rule(judge, refusal),
        Ok(built) => {
            let sizes = Sizes {
                sets: built.setcount,
                starts: built.startcount,
            };
            let board = board::empty_board(0);
            let judge = Judge { built, board };
            InstallResult {
                answer: Ok(sizes),
                judge,
            }
        }
    }
}

// Reads a rule file and installs the rule.
pub fn load(judge: Judge, file: &[u8]) -> InstallResult
    ensures { install_outcome result ≡ load_of judge file.now }
{
    match rulefile::read(file) {
        Err(refusal) => refuse_rule(judge, refusal),
        Ok(rule) => install(judge, rule),
    }
}

// A board of that many places, all empty; an earlier board is dropped.
pub fn open(judge: Judge, places: usize) -> CallResult
    ensures { call_outcome result ≡ open_of judge places }
{
    let built = judge.built;
    if built.n == 0 {
        return refuse_call(judge, Refusal::NoRule);
    }
    if places < 1 {
        return refuse_call(judge, Refusal::PlaceCount);
    }
    if limits::PLACES < places {
        return refuse_call(judge, Refusal::PlaceCount);
    }
    let judge = with_board(judge, board::empty_board(places as u8));
    CallResult {
        answer: Ok(()),
        judge,
    }
}

// Runs the text of a chunk, which is the chunk without its idle marks, and keeps its end sets,
// count, length and revision at the place, instead of what stood there; the place is filled within
// the judge that came, since a board that goes through a function is copied. Accepted, it answers
// for how many bytes of the text a successor was looked up.
pub fn deliver(mut judge: Judge, place: usize, revision: u32, chunk: &[u8]) -> DeliverResult
    ensures { deliver_outcome result ≡ deliver_of judge place revision chunk.now }
{
    if judge.board.places == 0 {
        return refuse_delivery(judge, Refusal::NoBoard);
    }
    if board::places_of(judge.board.places) <= place {
        return refuse_delivery(judge, Refusal::NoPlace);
    }
    if limits::CHUNK < chunk.len() {
        return refuse_delivery(judge, Refusal::LongChunk);
    }
    let n = judge.built.n;
    let mask = chunks::run_mask(judge.built.delegates, n, judge.built.initials, place);
    let late = board::comes_late(&judge.board.revisions, place, revision);
    let ran = deliveries::run_delivery(
        &judge.built.sets,
        &judge.built.next,
        &judge.built.singles,
        mask,
        judge.built.k,
        late,
        chunk,
    );
    let runs = match ran {
        Err(refusal) => return refuse_delivery(judge, refusal),
        Ok(runs) => runs,
    };
    board::set_number(&mut judge.board.filled, place, 1);
    board::set_number(&mut judge.board.counts, place, runs.count);
    board::set_number(&mut judge.board.lengths, place, runs.bytes);
    board::set_revision(&mut judge.board.revisions, place, revision);
    board::set_row(&mut judge.board.ends, place, &runs.ends);
    DeliverResult {
        answer: Ok(runs.looked),
        judge,
    }
}

// Empties the place.
pub fn withdraw(judge: Judge, place: usize) -> CallResult
    ensures { call_outcome result ≡ withdraw_of judge place }
{
    let board = judge.board;
    if board.places == 0 {
        return refuse_call(judge, Refusal::NoBoard);
    }
    if board::places_of(board.places) <= place {
        return refuse_call(judge, Refusal::NoPlace);
    }
    if board::is_empty(&board.filled, place) {
        return refuse_call(judge, Refusal::EmptyPlace);
    }
    let judge = with_board(judge, board::clear(board, place));
    CallResult {
        answer: Ok(()),
        judge,
    }
}

// The verdict, and how many transitions it cost for each byte.
pub fn ask_verdict(judge: Judge) -> Report
    ensures { report_means result ≡ report_of judge }
{
    let verdict = verdicts::find_verdict(judge);
    let board = judge.board;
    verdicts::report_on(verdict, board::summed(&board.lengths, board.places))
}
