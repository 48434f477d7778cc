// Following the chunks of a filled board one after the other says what the board says: no code.
// specs/ says what is claimed.
#![tactic(auto)]
