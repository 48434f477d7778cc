// Two rules made one of reduced rules: its definitions are in specs/, and what they promise is proved
// in proofs/. crates/mergereduced has the function.
#![tactic(auto)]
