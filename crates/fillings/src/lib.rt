// Boards that are filled with a list of chunks: no code. specs/ says what is claimed.
#![tactic(auto)]
