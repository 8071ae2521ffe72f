// Definitions and laws that keywords, context and tape share; they stand in specs/ and proofs/. No code.
#![tactic(auto)]
