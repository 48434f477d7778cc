// The requests of document 02 that brought functions of their own, and the capabilities beyond the
// papers: no code. Each has a page in proofs/ that states it sentence by sentence, with the theorem
// that meets each.
#![tactic(auto)]
