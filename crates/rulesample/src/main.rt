// Reads a rule file from standard input and prints the first text that its rule accepts and the
// first that it rejects, or the number with which it is refused. Where it cannot read or write it
// says so on standard error.
#![tactic(auto)]

use stdio::Input;

fn main(rt: HostRuntime) {
    if stdio::has_arguments(
        &rt,
        b"usage: rulesample < RULE   (takes no arguments; see docs/PROGRAMS.md)\n",
    ) {
        return;
    }
    let mut file = [0u8; limits::FILE_ROOM];
    let read = ruleinput::read_rule(&rt, &mut rt.stdin(), b"rulesample", &mut file);
    let Input::Bytes(n) = read else {
        return;
    };
    let mut text = [0u8; sampletext::ROOM];
    let length = sampletext::print_samples(&file[..n], &mut text);
    stdio::write_all(&rt, &mut rt.stdout(), b"rulesample", &text[..length]);
}
