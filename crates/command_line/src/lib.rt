// What the small programs share: their arguments, the clock, files of packed series, and a refusal printed.
#![tactic(auto)]

pub mod arguments;
pub mod files;
pub mod moments;
pub mod words;
