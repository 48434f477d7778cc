// Lists of a tray's calls: no code. What a list of calls says by itself is in specs/; that a tray
// answers so after every list is proved in proofs/.
#![tactic(auto)]
