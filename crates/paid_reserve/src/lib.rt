#![tactic(auto)]

// Demand 3: the forecast's distance to the unrounded paid chain-ladder reserve. The theorems stand
// in specs/ and proofs/; there is no code.
