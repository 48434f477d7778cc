// Two rules made one: the ways. The merged rule, the conditions and what it accepts are defined in
// specs/; crates/merge has the function.
#![tactic(auto)]

// The texts that the result accepts: those that both rules accept, those that either accepts, the
// interleavings of one from each.
#[derive(Clone, Copy)]
pub enum Way {
    Both,
    Either,
    Interleaving,
}
