// The dump of a soft page: 01, "The dump": theory alone. See specs/ for the definitions and proofs/ for the laws; the code is crate `blocks`.
#![tactic(auto)]
