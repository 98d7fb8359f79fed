// Binary polynomials as natural numbers: theory alone, for every degree. See specs/ for the definitions and proofs/ for the laws.
#![tactic(auto)]
