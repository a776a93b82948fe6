// Laws about verdicts and figures that `sweep` and `judge` promise: of a direction whose entries are multiplied by a whole number, said
// of the direction itself; of levels far from every bound; of a level that is one count lower; of the slacks of a calm model with
// multiplied directions.
// There is no code here: see specs/ and proofs/.
#![tactic(auto)]
