// Reads a rule file from standard input and prints the mappings of its rule, or the number with
// which it is refused. Where it cannot read or write it says so on standard error.
#![tactic(auto)]

use stdio::Input;

fn main(rt: HostRuntime) {
    if stdio::has_arguments(
        &rt,
        b"usage: profileprint < RULE   (takes no arguments; see docs/PROGRAMS.md)\n",
    ) {
        return;
    }
    let mut file = [0u8; limits::FILE_ROOM];
    let read = ruleinput::read_rule(&rt, &mut rt.stdin(), b"profileprint", &mut file);
    let Input::Bytes(n) = read else {
        return;
    };
    let mut text = [0u8; profiletext::ROOM];
    let length = profiletext::print_profile(&file[..n], &mut text);
    stdio::write_all(&rt, &mut rt.stdout(), b"profileprint", &text[..length]);
}
