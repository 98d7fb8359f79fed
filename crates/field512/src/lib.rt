// The field of 512 elements, α^9 = α^4 + 1, which the long page of 02 will use: the test of its modulus alone, so that no other crate computes it again.
#![tactic(auto)]
