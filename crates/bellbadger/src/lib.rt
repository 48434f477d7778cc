// What C links, as one static library: every function that a header declares, under the contract that
// the library behind it has. Nothing is computed here; proofs and theorems speak of the libraries.
#![tactic(auto)]

mod compare_exports;
mod faults_exports;
mod follow_exports;
mod form_exports;
mod judge_exports;
mod losses_exports;
mod mappings_exports;
mod merge_exports;
mod merge_reduced_exports;
mod patterns_exports;
mod reduce_exports;
mod samples_exports;
mod saved_exports;
mod summaries_exports;
mod texts_exports;
mod trays_exports;
