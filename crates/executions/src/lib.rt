// Lists of calls to any machine: no code. The definitions are in specs/, their law in proofs/.
#![tactic(auto)]
