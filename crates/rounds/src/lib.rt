// Colours and rounds: the colours of both sides, the key of an element, one round with a palette shared by both sides.

#![tactic(auto)]

pub mod board;
pub mod classes;
pub mod colour;
pub mod colours;
pub mod counts;
pub mod group;
pub mod keys;
pub mod numbers;
pub mod round;
