// The stack search of a decoder, on any finite binary tree and any strict total order: theory alone.
// See specs/ for the definitions and proofs/ for the theorems.
#![tactic(auto)]
