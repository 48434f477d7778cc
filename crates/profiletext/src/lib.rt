// Prints a profile into a lent buffer.
#![tactic(auto)]

ghost use Rattle.std.specs.Prelude.{◌+◌, ◌*◌, ◌≤◌, ◌<◌, length};
ghost use Rattle.limits.specs.Limits.{most_symbols, most_sets};
ghost use Rattle.base.specs.Lists.{joined};
ghost use Rattle.text.specs.Writing.{Wrote};
ghost use Rattle.profiletext.specs.ProfileText.{mapping_line, head_line, profile_text, text_for, most_bytes};

use keys::KeyNumber;
use profile::Profile;
use subsets::SetNumber;

// Room for the printed text of any profile.
pub const ROOM: usize = 43533;

// The line of mapping i.
fn put_line(
    out: &mut [u8],
    at: usize,
    mappings: &[u64; limits::SETS],
    next: &[u16; limits::CELLS],
    k: usize,
    i: KeyNumber,
) -> usize
    requires { (k ≤ most_symbols) × (i.0 < most_sets) × (at + 85 ≤ length out.old) }
    ensures { Wrote out.old at (mapping_line mappings.now next.now k i.0) out.new result }
{
    let row = i.0 as usize;
    let mapping = mappings::unpack(mappings[row]);
    let a = text::put_decimal(out, at, i.0 as u64);
    let b = text::put_byte(out, a, b' ');
    let c = maptext::put_mapping(out, b, mapping);
    let d = ruletext::put_row(out, c, next, k, SetNumber(i.0));
    text::put_byte(out, d, b'\n')
}

// The lines of the first count mappings.
fn put_lines(
    out: &mut [u8],
    start: usize,
    mappings: &[u64; limits::SETS],
    next: &[u16; limits::CELLS],
    k: usize,
    count: usize,
) -> usize
    requires { (k ≤ most_symbols) × (count ≤ most_sets) × (start + 85 * count ≤ length out.old) }
    ensures { Wrote out.old start (joined (mapping_line mappings.now next.now k) count) out.new result }
{
    let mut at = start;
    for i in 0..count {
        let number = i as u16;
        at = put_line(out, at, mappings, next, k, KeyNumber(number));
    }
    at
}

fn put_head(out: &mut [u8], at: usize, count: usize) -> usize
    requires { (count ≤ most_sets) × (at + 13 ≤ length out.old) }
    ensures { (Wrote out.old at (head_line count) out.new result) × (result ≤ at + 13) }
{
    let a = text::put_bytes(out, at, b"mappings ");
    let b = text::put_decimal(out, a, count as u64);
    text::put_byte(out, b, b'\n')
}

// The text of a profile, from the start.
fn put_profile(out: &mut [u8], profile: Profile) -> usize
    requires { most_bytes ≤ length out.old }
    ensures { Wrote out.old 0 (profile_text profile) out.new result }
{
    let count = (profile.count as usize).min(limits::SETS);
    let k = (profile.k as usize).min(limits::SYMBOLS);
    let mappings = profile.mappings;
    let next = profile.next;
    let lines = put_head(out, 0, count);
    put_lines(out, lines, &mappings, &next, k, count)
}

// The profile of the rule in a file, as text; or the number with which it is refused.
pub fn print_profile(file: &[u8], out: &mut [u8]) -> usize
    requires { most_bytes ≤ length out.old }
    ensures { Wrote out.old 0 (text_for file.now) out.new result }
{
    match profilefile::build_file(file) {
        Ok(profile) => put_profile(out, profile),
        Err(refusal) => answers::put_refused(out, 0, refusal.number()),
    }
}
