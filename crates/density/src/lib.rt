// Binary rows: their density, the necklaces of length n and density d, and the check of a drawer.
#![tactic(auto)]

pub mod count;
pub mod drawers;
pub mod kinds;
pub mod rows;
