// What the records of the program `trace` do to the sampler, and the text of what they answer and leave.
#![tactic(auto)]

pub mod calls;
pub mod puts;
pub mod recording;
pub mod run;
pub mod waves;
