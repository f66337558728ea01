// What load and save promise of each other, and what a refusal of words means, on the contracts of the two calls.

#![tactic(auto)]

pub mod tables;
