// Lists of calls: no code. What a list of calls says by itself is in specs/; that the judge answers
// so after every list is proved in proofs/.
#![tactic(auto)]
