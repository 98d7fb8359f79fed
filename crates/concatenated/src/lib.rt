// The generalized concatenated code of 01, "Rows and page": written pages, soft pages, page decoding over any column reader; demands 2 and 3 for pages: theory alone.
// See specs/ for the definitions and proofs/ for the theorems.
#![tactic(auto)]
