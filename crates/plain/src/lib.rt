// The plain kernel of document 01: definitions in specs/. No code.
#![tactic(auto)]
