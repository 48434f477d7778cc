// Lists of calls with their replies: no code. What document 01 says of them is in specs/, by the
// automaton and the list alone; that the judge answers so is proved in proofs/.
#![tactic(auto)]
