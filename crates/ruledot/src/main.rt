// Reads a rule file from standard input and draws its automaton on standard output as Graphviz
// text. Where the reader refuses the file, its number goes to standard error and nothing is drawn.
// Where it cannot read or write it says so on standard error.
#![tactic(auto)]

use std::io;
use stdio::{Input, Streams};

// A failure of this line is told nowhere.
fn write_refused<R: Eprint>(rt: &R, number: u8) {
    let _ = eprintln!(rt; "refused {number}");
}

fn draw<R: Streams>(rt: &R, file: &[u8]) {
    let mut text = [0u8; limits::GRAPH_TEXT];
    match dottext::print_whole(file, &mut text) {
        Ok(length) => {
            stdio::write_all(rt, &mut io::writer(rt), b"ruledot", &text[..length]);
        }
        Err(refusal) => write_refused(rt, refusal.number()),
    }
}

fn main(rt: HostRuntime) {
    if stdio::has_arguments(
        &rt,
        b"usage: ruledot < RULE   (takes no arguments; see docs/PROGRAMS.md)\n",
    ) {
        return;
    }
    let mut file = [0u8; limits::FILE_ROOM];
    let read = ruleinput::read_rule(&rt, &mut rt.stdin(), b"ruledot", &mut file);
    let Input::Bytes(n) = read else {
        return;
    };
    draw(&rt, &file[..n]);
}
