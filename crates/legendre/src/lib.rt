// Legendre's equation on machine numbers.
#![tactic(auto)]

pub mod decide;
mod equation;
mod failing;
pub mod outcome;
mod signs;
mod walk;
