// Headings and running numbers of a published VSOP87D file judged, and the blocks that it leaves out (RULES, "Published files"). For the crate
// published.
#![tactic(auto)]

pub mod judge;
pub mod writer;
