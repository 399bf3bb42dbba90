//! Memory that is used again from reply to reply.
ghost use Rattle.std.specs.Prelude.{◌≡◌, []};

use crate::jobs::reply::Reply;
use otlp_messages::Backward;
use std::alloc::Global;

/// The buffer of a reply that was written, for a later one.
#[derive(Drop)]
pub(crate) struct Spare {
    buffer: Option<Backward>,
}

impl Spare {
    pub(crate) fn new() -> Spare {
        Spare { buffer: None }
    }

    /// An empty buffer: the one that is kept, or a new one.
    pub(crate) fn take(&mut self, alloc: Global) -> Backward
        ensures { result ≡ [] }
    {
        let Some(mut buffer) = self.buffer.take() else {
            return Backward::new(alloc);
        };
        buffer.clear();
        buffer
    }

    /// Keeps the buffer of a reply, unless one is kept already: so the reply to a reset doesn't displace a longer one.
    pub(crate) fn keep(&mut self, reply: Reply) {
        if self.buffer.is_none() {
            self.buffer = Some(reply.into_out());
        }
    }
}
