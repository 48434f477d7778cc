// The verdict of a composed mapping is that of a filled board: no code. specs/ says what is claimed.
#![tactic(auto)]
