// Patterns for shop owners (document 02, R-6): the limits of patterns and of their rule files, for
// code. What patterns and their positions are, and that the positions' rule accepts the pattern's
// texts, stands in specs/ and proofs/; crates/patternscan and crates/patternreader read patterns.
#![tactic(auto)]

// The most bytes of a pattern.
pub const PATTERN: usize = 128;

// The same, in the type in which a reading counts open brackets.
pub const DEPTH: u8 = PATTERN as u8;

// The most letters of a pattern: a rule has 32 states, and one of them is the start.
pub const LETTERS: usize = 31;

// The most bytes of a pattern's rule file.
pub const FILE: usize = 2122;
