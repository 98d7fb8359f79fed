// A heap of four children a place, over any elements and any relation that orders them: theory alone.
// See specs/ for the definitions and proofs/ for the laws.
#![tactic(auto)]
