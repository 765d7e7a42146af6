// No code: theorems in specs/ and proofs/, what the user was promised.
#![tactic(auto)]
