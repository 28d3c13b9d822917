// The kernels: work on tables of order n in one buffer, each named by its block number.
#![tactic(auto)]

pub mod block_residues;
pub mod blocks;
pub mod columns;
mod entries;
