//! What the gateway reads and writes: sources and sinks of bytes, the frames of a capture, batch messages, statuses and events.
#![tactic(auto)]

mod adapters;
mod batch;
mod batch_laws;
mod batch_writer;
mod buffer;
mod event;
mod event_laws;
mod frame;
mod frames;
mod front;
mod laws;
mod memory;
mod outside;
mod status;
mod status_laws;
mod steady;
mod writing;

pub use adapters::{ReadSource, WriteSink};
pub use batch::{Batch, BatchRefusal, Payload, Payloads, read_batch};
pub use batch_laws::{one_batch, read_or_refused, written_batch_is_read};
pub use batch_writer::BatchWriter;
pub use event::{SendEvent, read_event};
pub use event_laws::{event_or_refused, one_event};
pub use frame::{Damage, FRAME_HEAD, Frame, FramesRefusal, MAX_CAPTURE, MAX_FRAME, Step, Why};
pub use frames::Frames;
pub use laws::{decided_stays, limits_are_stated, one_capture, some_capture, written_is_read};
pub use memory::{MemorySink, MemorySource};
pub use outside::{ReadFailed, Sink, SinkRefusal, Source, write_whole};
pub use status::{Status, read_status, write_status};
pub use status_laws::{one_status, status_or_refused, written_status_is_read};
pub use steady::{SteadySink, SteadySource};
pub use writing::{write_frame, write_reset};
