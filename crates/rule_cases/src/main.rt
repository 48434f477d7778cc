// Reads rule files from standard input, a line `NAME HEX` each with `-` for no bytes, and prints
// the name with what the reader answers, and then what ruleprint prints for the file.
#![tactic(auto)]

use automaton::Rule;
use std::io;
use stdio::Input;

// ` STATE.SYMBOL=MASK` for a cell that is not empty.
fn print_cell<R: Print>(rt: &R, cell: usize, mask: u32) -> io::Result<()> {
    if mask == 0 {
        return Ok(());
    }
    let state = cell / limits::SYMBOLS;
    let symbol = cell % limits::SYMBOLS;
    print!(rt; " {state}.{symbol}={mask:x}")
}

fn print_cells<R: Print>(rt: &R, targets: &[u32; limits::TARGETS]) -> io::Result<()> {
    for (cell, mask) in targets.iter().enumerate() {
        print_cell(rt, cell, *mask)?;
    }
    Ok(())
}

fn print_head<R: Print>(rt: &R, rule: &Rule) -> io::Result<()> {
    let n = rule.n;
    let k = rule.k;
    let initials = rule.initials;
    let finals = rule.finals;
    print!(rt; "accepted {n} {k} {initials:x} {finals:x}")
}

// What the reader answers to a file.
fn print_answer<R: Print>(rt: &R, file: &[u8]) -> io::Result<()> {
    match rulefile::read(file) {
        Ok(rule) => {
            print_head(rt, &rule)?;
            print_cells(rt, &rule.targets)
        }
        Err(refusal) => {
            let number = refusal.number();
            print!(rt; "refused {number}")
        }
    }
}

// What ruleprint prints for a file.
fn print_text<R: Print>(rt: &R, file: &[u8]) -> io::Result<()> {
    let mut text = [0u8; limits::RULE_TEXT];
    let length = ruletext::print_whole(file, &mut text);
    rt.write_all(&text[..length])
}

fn print_case<R: Print>(rt: &R, file: &[u8]) -> io::Result<()> {
    print_answer(rt, file)?;
    println!(rt)?;
    print_text(rt, file)
}

// One case.
fn run_case<R: Print>(rt: &R, line: &[u8]) -> io::Result<()> {
    let space = lines::find(line, 0, b' ');
    if line.len() <= space {
        return Ok(());
    }
    let hex = space + 1;
    rt.write_all(&line[..space])?;
    let mut file = [0u8; limits::FILE_ROOM];
    let Some(n) = fields::read_bytes(&line[hex..], &mut file) else {
        return println!(rt; " malformed");
    };
    print!(rt; " ")?;
    print_case(rt, &file[..n])
}

fn run_cases<R: Print>(rt: &R, text: &[u8]) -> io::Result<()> {
    let mut at: usize = 0;
    while at < text.len() {
        let end = lines::find(text, at, b'\n');
        run_case(rt, &text[at..end])?;
        at = end + 1;
    }
    Ok(())
}

fn main(rt: HostRuntime) -> io::Result<()> {
    let mut text = [0u8; limits::CASES_TEXT];
    let read = stdio::read_all(&rt, &mut rt.stdin(), b"rule_cases", &mut text);
    let Input::Bytes(n) = read else {
        return Ok(());
    };
    run_cases(&rt, &text[..n])
}
