// A rule reduced: what reducing answers. The reduced rule and what it promises are defined in specs/;
// crates/reduce has the function.
#![tactic(auto)]

use automaton::Rule;

// The reduced rule, and whether installing it is accepted: it can have more than 512 sets though the
// rule it came from has not.
#[derive(Clone, Copy)]
pub struct Reduced {
    pub installs: bool,
    pub rule: Rule,
}
