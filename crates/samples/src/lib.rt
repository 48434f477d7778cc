// A sample trace of a rule: the wishes. What asking for one answers, and that the words of the
// request fix it, is in specs/; crates/sampling has the function.
#![tactic(auto)]

// The most symbols of a sample.
pub const LONGEST: usize = searches::LONGEST;

// What the text is to be.
#[derive(Clone, Copy)]
pub enum Wish {
    Accepted,
    Rejected,
}
