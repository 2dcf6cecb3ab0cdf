// Number theory on machine numbers: each function gives what its definition in specs/ gives.
#![tactic(auto)]

pub mod euclid;
pub mod residue;
pub mod roots;
pub mod splitting;
