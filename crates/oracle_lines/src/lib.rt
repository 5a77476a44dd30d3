// What the programs for the comparison with the Rust share: how they read records and their fields, and the lines that
// they write.
#![tactic(auto)]

pub mod chunk;
pub mod field;
pub mod level;
pub mod line;
pub mod settings;
