// A rule as a value, from the bytes that state it.
#![tactic(auto)]

ghost use Rattle.std.specs.Prelude.{◌≡◌, length};
ghost use Rattle.packed.specs.Packed.{packed_size, rule_at};

use automaton::Rule;

// The rule that the bytes state, whatever they are: it is not checked.
pub fn unpack(bytes: &[u8]) -> Rule
    requires { length bytes.now ≡ packed_size }
    ensures { result ≡ rule_at bytes.now }
{
    let n = bytes[0];
    let k = bytes[1];
    let initials = rulefile::word(bytes, 2);
    let finals = rulefile::word(bytes, 6);
    let mut targets = [0u32; limits::TARGETS];
    for (cell, target) in targets.iter_mut().enumerate() {
        *target = rulefile::word(bytes, 10 + 4 * cell);
    }
    Rule {
        n,
        k,
        initials,
        finals,
        targets,
    }
}
