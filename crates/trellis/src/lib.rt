// 01, "The search": branch values, the order of paths, the trellises of a level, and demand 3 for columns: theory alone.
// See specs/ for the definitions and proofs/ for the theorems.
#![tactic(auto)]
