// Reads a rule file from standard input and prints the built rule, or the number with which it is
// refused. Where it cannot read or write it says so on standard error.
#![tactic(auto)]

use stdio::Input;

fn main(rt: HostRuntime) {
    if stdio::has_arguments(
        &rt,
        b"usage: ruleprint < RULE   (takes no arguments; see docs/PROGRAMS.md)\n",
    ) {
        return;
    }
    let mut file = [0u8; limits::FILE_ROOM];
    let read = ruleinput::read_rule(&rt, &mut rt.stdin(), b"ruleprint", &mut file);
    let Input::Bytes(n) = read else {
        return;
    };
    let mut text = [0u8; limits::RULE_TEXT];
    let length = ruletext::print_whole(&file[..n], &mut text);
    stdio::write_all(&rt, &mut rt.stdout(), b"ruleprint", &text[..length]);
}
