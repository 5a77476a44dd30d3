// The text of a sampler's record, and of the answers to a host's questions.
#![tactic(auto)]

pub mod record;
pub mod replies;
