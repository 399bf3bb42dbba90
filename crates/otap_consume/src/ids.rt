//! The schema ids of the payloads of a batch.
ghost use Rattle.std.specs.Prelude.{◌≡◌, List, IfOk, IfErr, OnOk, map, false};
ghost use Rattle.otlp_model.specs.declared.request.Signal.{Signal};
ghost use Rattle.otap_capture.specs.Batch.{content_of};
ghost use Rattle.otap_consume.specs.Defects.{IsDefectOfList, is_open_id, is_taken};
ghost use Rattle.lists.specs.EachAfter.{AllAfter};
ghost use Rattle.lists.specs.Payloads.{PayloadIn};
ghost use Rattle.otap_consume.specs.Ids.{ids_of, ids_after, has_other, has_other_type, with_open_id};
ghost use Rattle.otap_consume.specs.IdsInside.{open_id_in};
ghost use Rattle.otap_consume.specs.Untaken.{SaysDefect};

use crate::not_taken::{NotTaken, defect};
use crate::refusal::Cause;
use crate::stream::Stream;
use otap_capture::{Batch, Payload};
use std::alloc::{AllocError, Global};
use std::marker::Model;

/// Checks the schema ids of a batch: when a payload comes, its id must not be open for another type.
pub(crate) fn check_ids(
    alloc: Global,
    streams: &[Stream],
    batch: &Batch<'_>,
) -> Result<(), NotTaken>
    ensures free { OnOk result ((signal : Signal) (past : List PayloadIn) → ids_of streams.now ≡ ids_after signal past
        → AllAfter (λ before p. is_taken signal before p ≡ false) past batch.now.payloads) }
    ensures stops { IfErr result (λ stop. (signal : Signal) (past : List PayloadIn) → ids_of streams.now ≡ ids_after signal past
        → SaysDefect (IsDefectOfList signal past batch.now.payloads) stop) }
{
    let mut ids = OpenIds::of(alloc, streams)?;
    'payloads: for payload in batch.payloads() {
        if ids.has_other(&payload) {
            return Err(defect(Cause::SchemaIdTaken, payload.kind));
        }
        ids.set(&payload);
    }
    Ok(())
}

/// The schema id that is open for a type: that of an earlier payload of this batch, else that of the stream.
#[derive(Clone, Copy, Debug)]
struct OpenId<'s, 'b> {
    stream: &'s Stream,
    here: Option<&'b str>,
}

impl<'s, 'b> OpenId<'s, 'b> {
    fn is(&self, schema_id: &str) -> bool
        ensures { result ≡ is_open_id schema_id.now (open_id_in self.now).id }
    {
        match self.here {
            Some(id) => id == schema_id,
            None => self.stream.has_id(schema_id),
        }
    }

    fn set(&mut self, payload: &Payload<'b>)
        ensures { open_id_in self.new ≡ with_open_id (content_of payload.now) (open_id_in self.old) }
    {
        if self.stream.is_of(payload.kind) {
            self.here = Some(payload.schema_id);
        }
    }
}

/// The schema ids that are open for the types of a signal.
#[derive(Debug, Drop)]
struct OpenIds<'s, 'b> {
    ids: Vec<OpenId<'s, 'b>>,
}

impl<'s, 'b> Model for OpenIds<'s, 'b> {
    ghost use Rattle.std.specs.Prelude.{List};
    ghost use Rattle.otap_consume.specs.Ids.{OpenIdIn};

    ghost Value = { List OpenIdIn };

    ghost use Rattle.otap_consume.specs.IdsInside.{open_ids};

    ghost view = { open_ids };
}

impl<'s, 'b> OpenIds<'s, 'b> {
    fn of(alloc: Global, streams: &'s [Stream]) -> Result<OpenIds<'s, 'b>, AllocError>
        ensures { IfOk result (λ ids. ids ≡ ids_of streams.now) }
    {
        let mut ids = Vec::new(alloc);
        'streams: for stream in streams {
            ids.push(OpenId { stream, here: None })?;
        }
        Ok(OpenIds { ids })
    }

    /// Whether the schema id of the payload is open for another type.
    fn has_other(&self, payload: &Payload<'_>) -> bool
        ensures { result ≡ has_other (content_of payload.now) self.now }
    {
        'ids: for id in &self.ids {
            if is_other(id, payload) {
                return true;
            }
        }
        false
    }

    /// Makes the schema id of the payload the one that is open for its type.
    fn set(&mut self, payload: &Payload<'b>)
        ensures { self.new ≡ map (with_open_id (content_of payload.now)) self.old }
    {
        set_all(&mut self.ids, payload);
    }
}

fn set_all<'b>(ids: &mut [OpenId<'_, 'b>], payload: &Payload<'b>)
    ensures { map open_id_in ids.new ≡ map (with_open_id (content_of payload.now)) (map open_id_in ids.old) }
{
    'ids: for place in 0..ids.len() {
        ids[place].set(payload);
    }
}

fn is_other(id: &OpenId<'_, '_>, payload: &Payload<'_>) -> bool
    ensures { result ≡ has_other_type (content_of payload.now) (open_id_in id.now) }
{
    !id.stream.is_of(payload.kind) && id.is(payload.schema_id)
}
