#![tactic(auto)]

// Examples of document 01 and of our own, held to the definitions by computation. They stand in
// specs/; there is no code.
