//! What is kept of a payload type: the sub-stream that is open for it.
ghost use Rattle.std.specs.Prelude.{◌≡◌, IfErr, OnOk};
ghost use Rattle.otap_capture.specs.Batch.{content_of};

use otap_capture::Payload;
use otap_cells::Kind;
use otap_columns::{ColumnRefusal, Reader};
use otlp_model::Text;
use std::alloc::Global;
use std::marker::Model;

/// A sub-stream that is open.
#[derive(Debug, Drop)]
struct Substream {
    schema_id: Text,
    reader: Reader,
}

/// The payloads of a type. A contract sees the sub-stream that is open, if any; its reader is never broken.
#[derive(Debug, Drop)]
pub(crate) struct Stream {
    kind: Kind,
    current: Option<Substream>,
}

impl Model for Stream {
    ghost use Rattle.otap_consume.specs.Streams.{StreamIn};

    ghost Value = { StreamIn };

    ghost use Rattle.otap_consume.specs.StreamInside.{stream_in, IsStream};

    ghost view = { stream_in };

    ghost invariant = { IsStream };
}

impl Stream {
    ghost use Rattle.std.specs.Prelude.{true, false, IfSome};
    ghost use Rattle.std.specs.Option.{option_copied};
    ghost use Rattle.std.specs.Ordering.{int_eq};
    ghost use Rattle.otap_consume.specs.Defects.{is_open_id};
    ghost use Rattle.otap_consume.specs.Payloads.{payload_type_of};
    ghost use Rattle.otap_consume.specs.StreamSteps.{Takes, DoesNotTake, closed, schema_id_of, held_of, reader_of};

    /// A stream with no open sub-stream.
    pub(crate) fn new(kind: Kind) -> Stream
        ensures { result ≡ record { kind = kind; current = None } }
    {
        Stream {
            kind,
            current: None,
        }
    }

    pub(crate) fn kind(&self) -> Kind
        ensures { result ≡ self.now.kind }
    {
        self.kind
    }

    /// Whether payloads of this type go into it.
    pub(crate) fn is_of(&self, kind: i32) -> bool
        ensures { result ≡ int_eq kind (payload_type_of self.now.kind) }
    {
        kind == self.kind.number()
    }

    /// Whether this is the schema id of the sub-stream that is open.
    pub(crate) fn has_id(&self, schema_id: &str) -> bool
        ensures { result ≡ is_open_id schema_id.now (schema_id_of self.now) }
    {
        match &self.current {
            Some(substream) => substream.schema_id.as_str() == schema_id,
            None => false,
        }
    }

    /// Takes a payload, and passes over one of another type.
    pub(crate) fn take(&mut self, alloc: Global, payload: &Payload<'_>) -> Result<(), ColumnRefusal>
        ensures ok { OnOk result (Takes self.old (content_of payload.now) self.new) }
        ensures err { IfErr result (DoesNotTake self.old (content_of payload.now)) }
        ensures kind { self.new.kind ≡ self.old.kind }
    {
        if !self.is_of(payload.kind) {
            return Ok(());
        }
        if self.has_id(payload.schema_id) {
            self.go_on(payload)
        } else {
            self.begin(alloc, payload)
        }
    }

    /// Takes a further record of the sub-stream that is open. Where it is refused, none is open any more.
    fn go_on(&mut self, payload: &Payload<'_>) -> Result<(), ColumnRefusal>
        requires of_type { int_eq payload.now.kind (payload_type_of self.old.kind) ≡ true }
        requires same { is_open_id payload.now.schema_id.now (schema_id_of self.old) ≡ true }
        ensures ok { OnOk result (Takes self.old (content_of payload.now) self.new) }
        ensures err { IfErr result (DoesNotTake self.old (content_of payload.now)) }
        ensures kind { self.new.kind ≡ self.old.kind }
    {
        let Some(mut substream) = self.current.take() else {
            unreachable!()
        };
        substream.reader.take(payload.bytes)?;
        self.current = Some(substream);
        Ok(())
    }

    /// Opens a sub-stream, and closes the one that is open.
    fn begin(&mut self, alloc: Global, payload: &Payload<'_>) -> Result<(), ColumnRefusal>
        requires of_type { int_eq payload.now.kind (payload_type_of self.old.kind) ≡ true }
        requires other { is_open_id payload.now.schema_id.now (schema_id_of self.old) ≡ false }
        ensures ok { OnOk result (Takes self.old (content_of payload.now) self.new) }
        ensures err { IfErr result (DoesNotTake self.old (content_of payload.now)) }
        ensures kind { self.new.kind ≡ self.old.kind }
    {
        let reader = Reader::start(alloc, self.kind, payload.bytes)?;
        let schema_id = Text::from_str(alloc, payload.schema_id)?;
        self.current = Some(Substream { schema_id, reader });
        Ok(())
    }

    /// Closes the sub-stream that is open.
    pub(crate) fn close(&mut self)
        ensures { self.new ≡ closed self.old }
    {
        self.current = None;
    }

    /// The reader of the sub-stream that is open.
    pub(crate) fn reader(&self) -> Option<&Reader>
        ensures reader { option_copied result ≡ reader_of self.now }
        ensures kind { IfSome result (λ reader. reader.now.kind ≡ self.now.kind) }
    {
        let substream = self.current.as_ref()?;
        Some(&substream.reader)
    }

    /// What the dictionaries of the sub-stream that is open hold.
    pub(crate) fn held(&self) -> u64
        ensures { result ≡ held_of self.now }
    {
        match &self.current {
            Some(substream) => substream.reader.held(),
            None => 0,
        }
    }
}
