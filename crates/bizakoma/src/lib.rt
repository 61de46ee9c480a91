// The calls for programs in C and Rust.
//
// A slice is a pointer and a length. Each function returns the number of the answer, puts the values that the number carries in `carried`, with 0
// in the places that are not used, and leaves every buffer as the call it is named after does.

#![tactic(auto)]

mod find;
mod maps;
mod numbers;
