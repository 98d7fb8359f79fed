// Reed-Solomon words over any field of characteristic 2, and rows of the field of 2^m elements: theory alone.
// See specs/ for the definitions (01, "Rows and page") and proofs/ for the laws.
#![tactic(auto)]
