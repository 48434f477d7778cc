// The three demands: no code. proofs/Demands.antt states them, each with the theorem that meets it.
#![tactic(auto)]
