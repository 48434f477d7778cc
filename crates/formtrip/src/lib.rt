// The failure form of every rule that was installed gives its table back. There is no code here.
#![tactic(auto)]
