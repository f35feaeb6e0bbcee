// Places as functions from numbers, queues as lists in order: definitions in specs/, their laws in proofs/. No code.
#![tactic(auto)]
