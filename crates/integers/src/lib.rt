// Whole numbers: the definitions and laws that the proofs of every crate rest on. There is no code here: see specs/ and proofs/.
#![tactic(auto)]
