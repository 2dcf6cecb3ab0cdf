// Conics with whole coefficients, and bases on them.
#![tactic(auto)]

pub mod base;
pub mod conic;
