//! What a transcript tells: of one script's commands, the whole history.
#![tactic(auto)]

mod spelled;

pub use spelled::{a_script_and_a_transcript_tell_the_history, transcripts_tell_histories};
