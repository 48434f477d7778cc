// Two automata made one, and the texts that they accept then: no code. specs/ says what it is and
// what it comes to.
#![tactic(auto)]
