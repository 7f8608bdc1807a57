//! What a run writes where spans start early: the text of the same script without that, with other ids, if that script may
//! start them early.
#![tactic(auto)]

pub mod laws;
