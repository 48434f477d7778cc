// What summaries come to for a rule, beside a board and after lists of calls: no code. specs/ says
// what is claimed.
#![tactic(auto)]
