// Exact arithmetic on 64-bit numbers: sign and magnitude, rounded quotients, remainders, products that pass 64 bits.
#![tactic(auto)]

pub mod compare;
pub mod muldiv;
pub mod residue;
mod round;
pub mod signed;
