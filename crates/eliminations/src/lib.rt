// The eliminations: whether a table has an inverse modulo 2, and an inverse modulo 2^32.
#![tactic(auto)]

pub mod inverting;
pub mod parity;
