// No code: in specs/ what tables, runs, records and patches mean, in proofs/ the laws about it.
#![tactic(auto)]
