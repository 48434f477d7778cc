// Reading rule files: any bytes go in, a checked rule or the number of a refusal comes out.
#![tactic(auto)]

ghost use Rattle.std.specs.Prelude.{◌≡◌, false, cond, ℕ, ◌+◌, ◌*◌, ◌/◌, ◌%◌, ◌≤◌, ◌<◌, eqb, length, get_or};
ghost use Rattle.std.proofs.Math.Option.{none};
ghost use Rattle.std.specs.Int.Bits.{bit_or};
ghost use Rattle.base.specs.Answers.{result_number};
ghost use Rattle.limits.specs.Limits.{most_states, most_symbols, target_cells};
ghost use Rattle.ruleformat.specs.Format.{byte_at, half_at, word_at, state_count};
ghost use Rattle.ruleformat.specs.Refusals.{bad_pairs, bad_section, bad_arcs, refusal};
ghost use Rattle.ruleformat.specs.Reader.{targets_by, rule_of, no_rule, read_outcome, read_of};

use automaton::Rule;
use base::Refusal;
use masks::StateNumber;

// The byte at an index.
fn byte(file: &[u8], at: usize) -> usize
    requires { at < length file.now }
    ensures { (result ≡ byte_at file.now at) × (result < 256) }
{
    file[at] as usize
}

// The 16-bit number at an index.
fn half(file: &[u8], at: usize) -> usize
    requires { at + 2 ≤ length file.now }
    ensures { (result ≡ half_at file.now at) × (result < 65536) }
{
    byte(file, at) + 256 * byte(file, at + 1)
}

// The 32-bit number at an index.
pub fn word(file: &[u8], at: usize) -> u32
    requires { at + 4 ≤ length file.now }
    ensures { result ≡ word_at file.now at }
{
    let low = half(file, at);
    let high = half(file, at + 2);
    (low + 65536 * high) as u32
}

// Condition 7: some pair breaks the pair rule, or the last section does not end at the file's end.
fn pairs_break(file: &[u8]) -> bool
    requires { (10 ≤ length file.now) × (10 + 4 * state_count file.now ≤ length file.now) }
    ensures { result ≡ bad_pairs file.now }
{
    let n = byte(file, 0);
    let mut due = 10 + 4 * n;
    for q in 0..n {
        let offset = half(file, 10 + 4 * q);
        let len = half(file, 12 + 4 * q);
        if offset != due {
            return true;
        }
        if len % 2 != 0 {
            return true;
        }
        due = offset + len;
    }
    due != file.len()
}

// Some arc of the section has a symbol at or above k or a target at or above n, or is out of order.
// An arc is compared with the one before as a 16-bit number; past is that number plus 1.
fn section_breaks(section: &[u8], n: usize, k: usize) -> bool
    ensures { result ≡ bad_section n k section.now }
{
    let count = section.len() / 2;
    let mut past: usize = 0;
    for i in 0..count {
        let symbol = byte(section, 2 * i);
        let target = byte(section, 2 * i + 1);
        if k <= symbol {
            return true;
        }
        if n <= target {
            return true;
        }
        let arc = 256 * symbol + target;
        if arc < past {
            return true;
        }
        past = arc + 1;
    }
    false
}

// Condition 8: some section has such an arc.
fn arcs_break(file: &[u8]) -> bool
    requires { (10 ≤ length file.now) × (10 + 4 * state_count file.now ≤ length file.now) × (bad_pairs file.now ≡ false) }
    ensures { result ≡ bad_arcs file.now }
{
    let n = byte(file, 0);
    let k = byte(file, 1);
    for q in 0..n {
        let from = half(file, 10 + 4 * q);
        let len = half(file, 12 + 4 * q);
        let to = from + len;
        if section_breaks(&file[from..to], n, k) {
            return true;
        }
    }
    false
}

// The first of the conditions 1 to 8 that holds.
fn check(file: &[u8]) -> Result<(), Refusal>
    ensures { result_number result ≡ refusal file.now }
{
    let len = file.len();
    if len < 10 {
        return Err(Refusal::TooShort);
    }
    if limits::FILE < len {
        return Err(Refusal::TooLong);
    }
    let n = byte(file, 0);
    if rulecheck::outside(n, limits::STATES) {
        return Err(Refusal::StateCount);
    }
    let k = byte(file, 1);
    if rulecheck::outside(k, limits::SYMBOLS) {
        return Err(Refusal::SymbolCount);
    }
    if len < 10 + 4 * n {
        return Err(Refusal::CutPairs);
    }
    let initials = word(file, 2);
    let finals = word(file, 6);
    if rulecheck::bad_masks(n, initials, finals) {
        return Err(Refusal::StrayState);
    }
    if pairs_break(file) {
        return Err(Refusal::BadPairs);
    }
    if arcs_break(file) {
        return Err(Refusal::BadArcs);
    }
    Ok(())
}

// Adds the arcs of the section of state q to its row of the table.
fn store_arcs(targets: &mut [u32; limits::TARGETS], q: StateNumber, section: &[u8])
    requires { (q.0 < most_states) × (length targets.old ≡ target_cells) × (bad_section most_states most_symbols section.now ≡ false) }
    ensures { (length targets.new ≡ target_cells) × ((cell : ℕ) → get_or targets.new cell 0 ≡ bit_or (get_or targets.old cell 0) (cond (eqb (cell / most_symbols) q.0) (targets_by section.now (cell % most_symbols)) 0)) }
{
    let row = limits::SYMBOLS * (q.0 as usize);
    let count = section.len() / 2;
    for i in 0..count {
        let at = row + byte(section, 2 * i);
        let target = section[2 * i + 1];
        let old = targets[at];
        targets[at] = masks::union(old, masks::singleton(StateNumber(target)));
    }
}

// The rule in a file that is not refused.
fn build(file: &[u8]) -> Rule
    requires { refusal file.now ≡ none }
    ensures { result ≡ rule_of file.now }
{
    let n = file[0];
    let k = file[1];
    let initials = word(file, 2);
    let finals = word(file, 6);
    let mut targets = [0u32; limits::TARGETS];
    for q in 0..n {
        let at = 4 * (q as usize);
        let from = half(file, 10 + at);
        let len = half(file, 12 + at);
        let to = from + len;
        store_arcs(&mut targets, StateNumber(q), &file[from..to]);
    }
    Rule {
        n,
        k,
        initials,
        finals,
        targets,
    }
}

// Zeros in every field.
pub fn no_rule() -> Rule
    ensures { result ≡ no_rule }
{
    let targets = [0u32; limits::TARGETS];
    Rule {
        n: 0,
        k: 0,
        initials: 0,
        finals: 0,
        targets,
    }
}

// The rule in the file, or the first of the refusals 1 to 8 whose condition holds.
pub fn read(file: &[u8]) -> Result<Rule, Refusal>
    ensures { read_outcome result ≡ read_of file.now }
{
    check(file)?;
    Ok(build(file))
}
