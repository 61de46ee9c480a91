// The search: find, find with pairs, find under a base.

#![tactic(auto)]

mod alike;
pub mod answer;
mod choices;
mod closing;
pub mod find;
mod machine;
mod pairs;
mod work;
