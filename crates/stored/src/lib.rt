// The stored model: what a file's bytes mean, or at which field they go wrong.
//
// `read::read` takes any bytes. It answers that they hold a model, with a layout that says where things stand in the file, or the fault of
// the first field that breaks a rule. Everything else here works on a file that was read: whether it is canonical, whether two files have
// one signature, the type and the representative of an element, the entries of a row.

#![tactic(auto)]

pub mod canonical;
pub mod field;
pub mod file;
pub mod layout;
pub mod lookup;
pub mod matched;
pub mod model;
pub mod read;
pub mod refusal;
pub mod relation;
pub mod roots;
pub mod rows;
pub mod signature;
pub mod types;
