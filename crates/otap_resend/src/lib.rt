//! A resending exporter: it keeps each request until a status says that it is done, and writes it again after a reset.
#![tactic(auto)]

pub mod laws;
mod refusal;
mod resender;
mod unanswered;

pub use refusal::{Answered, NotSent, ResendRefusal, SendRefusal};
pub use resender::Resender;
