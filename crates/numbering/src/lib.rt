// First found, numbered first, over any step: no code. specs/ says what it is and what it comes to.
#![tactic(auto)]
