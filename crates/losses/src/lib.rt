// Lost traces: no code. What a list of calls says of a loss by itself is in specs/; that the
// diagnosis says so after every list is proved in proofs/.
#![tactic(auto)]
