// What a customer can rely on, as theorems about the definitions of the other crates. There is no code here.
//
// `README.md` goes from each promise to its theorem. `specs/` says what an isomorphism is, what the bound is, what the calls say and write, and which states a search comes to;
// `proofs/` has one room for each promise.

#![tactic(auto)]
