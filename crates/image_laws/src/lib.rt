// The theorem that every sound plain state has exactly one image: its statement in specs/, its proof in proofs/. No code.
#![tactic(auto)]
