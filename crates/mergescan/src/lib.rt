// A line of rulemerge that is read byte by byte, of any length, and its answer.
#![tactic(auto)]

ghost use Rattle.std.specs.Prelude.{◌≡◌, ◌+◌, ◌≤◌, length, get_or, take};
ghost use Rattle.text.specs.Writing.{Wrote};
ghost use Rattle.mergetext.specs.Lines.{word_of, verb_word};
ghost use Rattle.mergetext.specs.Answers.{most_answer, response_in, response_text};
ghost use Rattle.hexfields.specs.Reading.{end_of};
ghost use Rattle.mergescan.specs.Scanning.{begin_of, word_after, second_after, scanned, scan_of, second_held, first_held, held_meaning, scan_all, is_start};

use hexfields::Part;
use mergetext::Verb;
use merging::Way;

// What of a line has been read: nothing; so many bytes of its word; the word and a part of the first
// field; all of that field, of which so many bytes stand in the first buffer, and a part of the second
// field; or no line begins so.
#[derive(Clone, Copy)]
pub enum Scan {
    Start,
    Word(Verb, usize),
    First(Verb, Part),
    Second(Verb, usize, Part),
    Stray,
}

// The byte at an index of a word, 0 past its end.
fn byte_at(word: &[u8], at: usize) -> u8
    ensures { result ≡ get_or word.now at 0 }
{
    if at < word.len() {
        return word[at];
    }
    0
}

// The byte at an index of the word of a way.
fn way_letter(way: Way, at: usize) -> u8
    ensures { result ≡ get_or (word_of way) at 0 }
{
    match way {
        Way::Both => byte_at(b"both ", at),
        Way::Either => byte_at(b"either ", at),
        Way::Interleaving => byte_at(b"interleaving ", at),
    }
}

// The byte at an index of a word.
fn letter(verb: Verb, at: usize) -> u8
    ensures { result ≡ get_or (verb_word verb) at 0 }
{
    match verb {
        Verb::Merge(way) => way_letter(way, at),
        Verb::Compare => byte_at(b"compare ", at),
        Verb::Reduce => byte_at(b"reduce ", at),
    }
}

// The index of the last byte of the word of a way.
fn last_of_way(way: Way) -> usize
    ensures { length (word_of way) ≡ result + 1 }
{
    match way {
        Way::Both => 4,
        Way::Either => 6,
        Way::Interleaving => 12,
    }
}

// The index of the last byte of a word.
fn last_letter(verb: Verb) -> usize
    ensures { length (verb_word verb) ≡ result + 1 }
{
    match verb {
        Verb::Merge(way) => last_of_way(way),
        Verb::Compare => 7,
        Verb::Reduce => 6,
    }
}

// The first byte of a line, which tells its word.
fn begin(c: u8) -> Scan
    ensures { result ≡ begin_of c }
{
    if c == b'b' {
        return Scan::Word(Verb::Merge(Way::Both), 1);
    }
    if c == b'e' {
        return Scan::Word(Verb::Merge(Way::Either), 1);
    }
    if c == b'i' {
        return Scan::Word(Verb::Merge(Way::Interleaving), 1);
    }
    if c == b'c' {
        return Scan::Word(Verb::Compare, 1);
    }
    if c == b'r' {
        return Scan::Word(Verb::Reduce, 1);
    }
    Scan::Stray
}

// One byte more of the word; the first field begins behind its last one.
fn word_on(verb: Verb, at: usize, c: u8) -> Scan
    ensures { result ≡ word_after verb at c }
{
    if c != letter(verb, at) {
        return Scan::Stray;
    }
    if at < last_letter(verb) {
        return Scan::Word(verb, at + 1);
    }
    Scan::First(verb, Part::Nothing)
}

// The space behind the first field.
fn end_first(verb: Verb, part: Part) -> Scan
    ensures { result ≡ second_after verb (end_of part) }
{
    match hexfields::end(part) {
        Some(n) => Scan::Second(verb, n, Part::Nothing),
        None => Scan::Stray,
    }
}

// One byte more of the line. The bytes of the two files go into two buffers, as many as fit.
fn scan_on(one: &mut [u8], two: &mut [u8], scan: Scan, c: u8) -> Scan
    ensures { scanned result one.new two.new ≡ scan_of (scanned scan one.old two.old) c }
{
    match scan {
        Scan::Start => begin(c),
        Scan::Word(verb, at) => word_on(verb, at, c),
        Scan::First(verb, part) => {
            if c == b' ' {
                return end_first(verb, part);
            }
            Scan::First(verb, hexfields::read_on(one, part, c))
        }
        Scan::Second(verb, n, part) => Scan::Second(verb, n, hexfields::read_on(two, part, c)),
        Scan::Stray => Scan::Stray,
    }
}

// The line goes on with the bytes.
pub fn scan_bytes(one: &mut [u8], two: &mut [u8], scan: Scan, bytes: &[u8]) -> Scan
    ensures { scanned result one.new two.new ≡ scan_all (scanned scan one.old two.old) bytes.now }
{
    let mut scan = scan;
    for byte in bytes {
        scan = scan_on(one, two, scan, *byte);
    }
    scan
}

// Whether nothing of a line has been read.
pub fn is_start(scan: Scan) -> bool
    ensures { result ≡ is_start scan }
{
    match scan {
        Scan::Start => true,
        Scan::Word(_, _) => false,
        Scan::First(_, _) => false,
        Scan::Second(_, _, _) => false,
        Scan::Stray => false,
    }
}

// The answer to a line that ends in its second field.
fn put_second(
    verb: Verb,
    n: usize,
    part: Part,
    one: &[u8],
    two: &[u8],
    out: &mut [u8],
    at: usize,
) -> usize
    requires { at + most_answer ≤ length out.old }
    ensures { Wrote out.old at (response_text (response_in (second_held verb (take n one.now) (end_of part) two.now))) out.new result }
{
    match hexfields::end(part) {
        Some(m) => {
            let first = n.min(one.len());
            let second = m.min(two.len());
            mergetext::put_pair(verb, &one[..first], &two[..second], out, at)
        }
        None => answers::put_malformed(out, at),
    }
}

// The answer to a line that ends in its first field.
fn put_first(verb: Verb, part: Part, one: &[u8], out: &mut [u8], at: usize) -> usize
    requires { at + most_answer ≤ length out.old }
    ensures { Wrote out.old at (response_text (response_in (first_held verb (end_of part) one.now))) out.new result }
{
    match hexfields::end(part) {
        Some(n) => {
            let first = n.min(one.len());
            mergetext::put_alone(verb, &one[..first], out, at)
        }
        None => answers::put_malformed(out, at),
    }
}

// The answer to a line that has ended.
pub fn put_answer(scan: Scan, one: &[u8], two: &[u8], out: &mut [u8], at: usize) -> usize
    requires { at + most_answer ≤ length out.old }
    ensures { Wrote out.old at (response_text (response_in (held_meaning scan one.now two.now))) out.new result }
{
    match scan {
        Scan::Second(verb, n, part) => put_second(verb, n, part, one, two, out, at),
        Scan::Start => answers::put_malformed(out, at),
        Scan::Word(_, _) => answers::put_malformed(out, at),
        Scan::First(verb, part) => put_first(verb, part, one, out, at),
        Scan::Stray => answers::put_malformed(out, at),
    }
}
