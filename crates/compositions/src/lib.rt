// Values put together two at a time, in any brackets, and lists of masks composed: no code. specs/
// says what is claimed.
#![tactic(auto)]
