// A walk over bytes by any step: no code. The definitions are in specs/, their laws in proofs/.
#![tactic(auto)]
