//! Segments of captures of batches: each batch is read after those before it, or refused by the first stage in which
//! something is wrong with it.
#![tactic(auto)]

mod checking;
mod ids;
pub mod laws;
mod not_taken;
mod opened;
mod payload_types;
mod receiver;
pub mod receiving_laws;
mod records;
mod refusal;
mod seen;
mod segment;
mod sizes;
mod stream;
mod taken;
mod taking;
mod views;

pub use not_taken::NotTaken;
pub use opened::{Checked, Opened, Weighed};
pub use otap_signals::check_set;
pub use payload_types::{TypesRefusal, check_types};
pub use receiver::Receiver;
pub use refusal::{Cause, MAX_HELD, Refusal};
pub use seen::Seen;
pub use segment::Segment;
pub use taken::{Given, Taken};
