//! The gateway's jobs: each reads a capture and replies to its frames, or writes a load that the program makes itself.
#![tactic(auto)]

mod jobs;
mod runs;
mod texts;

pub use jobs::filing_laws::{files_come_back, one_unfiling};
pub use jobs::filtering_laws::{filtered_texts_have_outcomes, what_is_filtered_is_read};
pub use jobs::reception_laws::{
    captures_have_texts, outcomes_give_the_texts, status_says_the_line, texts_have_outcomes,
};
pub use jobs::resending_laws::{
    all_texts_are_of_one_run, done_is_accepted, resent_texts_are_of_a_run, sinks_grow_by_one_run,
    what_is_resent_is_read,
};
pub use jobs::sending_laws::{encoded_texts_have_outcomes, what_is_written_is_read};
pub use runs::laws::{
    complete_endings, complete_runs, complete_unfiles, each_words, requests_fit_in_frames,
};
pub use runs::load_laws::{complete_loads, loads_are_received};
pub use runs::running::run;
pub use runs::words::Words;
