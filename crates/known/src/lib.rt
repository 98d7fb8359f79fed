// 01, "Known values (P: proved)": one table of the cases marked P, one theorem over it.
#![tactic(auto)]
