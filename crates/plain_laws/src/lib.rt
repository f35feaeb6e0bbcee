// The theorems about the plain kernel: what they speak of and their statements in specs/, their proofs in proofs/. No code.
#![tactic(auto)]
