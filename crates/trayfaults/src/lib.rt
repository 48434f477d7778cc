// Where a tray goes wrong: no code. What a list of a tray's calls says of it by itself is in
// specs/; that `fault` says so after every list is proved in proofs/.
#![tactic(auto)]
