// The marked figures of the specification ("Figures") as one list of cases, and one theorem over it.
// There is no code here: see specs/ and proofs/.
#![tactic(auto)]
