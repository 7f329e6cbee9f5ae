// A set of 1 to 64 patterns searched for in one pass, as rules: which hits there are and in what order, the machine that makes
// the steps, and the first refusal that applies. All of it is in specs/, and the theorems about it are in proofs/; there is no
// code here.
#![tactic(auto)]
