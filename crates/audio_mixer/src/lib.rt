//! The four voices of the audio device: notes that are started, and the samples that they give.
#![tactic(auto)]

mod mixer;
mod notes;
mod voices;

pub use mixer::Mixer;
pub use notes::Start;
