// Rows and maps: check, identity, apply, compose, inverse.
//
// Each call takes files of any bytes, lists and buffers of any length, and answers a number of the document with what it carries. Where it
// answers 0 and writes a map, the first n bytes of the output hold it and the rest are unchanged; on every other number the output is
// unchanged. Rows are compared after taking entries to representatives, as sets; no copy of a relation is kept.

#![tactic(auto)]

pub mod answer;
pub mod apply;
pub mod check;
pub mod compose;
pub mod files;
pub mod identity;
pub mod inverse;
pub mod maps;
pub mod packed;
pub mod pairs;
pub mod rows;
