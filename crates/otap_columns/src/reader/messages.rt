//! The messages of a record, one after the other.

ghost use Rattle.std.specs.Prelude.{◌≡◌, ◌<◌, length, IfOk, IfErr, IfSome, IfNone, IsTrue, OnOk, OnSome};
ghost use Rattle.arrow_ipc.specs.declared.messages.IpcMessage.TheVariants.{Schema};
ghost use Rattle.arrow_ipc.specs.Fronts.{front_of, left_of, rest_of};
ghost use Rattle.arrow_schema.specs.Readable.{IsReadable};
ghost use Rattle.otap_columns.specs.Reading.{Passes, FindsRows, HasReadableSchema, IsAtEnd, IsAnyBatch, PassesNext, RefusesNext, RefusesFirst, RefusesOrder, RefusesEnd};
ghost use Rattle.otap_columns.specs.declared.refusal.ColumnRefusal.TheVariants.{Order};
ghost use Rattle.otap_columns.specs.Records.{is_schema};

use crate::refusal::ColumnRefusal;
use arrow_ipc::{BatchView, IpcMessage, Messages};
use arrow_schema::SchemaSpec;
use std::alloc::Global;

/// A dictionary batch or a record batch: a message after the schema of a record.
#[derive(Debug, Drop)]
pub(crate) enum AnyBatch<'a> {
    Dictionary {
        id: i64,
        delta: bool,
        batch: BatchView<'a>,
    },
    Rows(BatchView<'a>),
}

/// The next message; `None` at the end.
pub(crate) fn next<'a>(
    alloc: Global,
    messages: &mut Messages<'a>,
) -> Result<Option<IpcMessage<'a>>, ColumnRefusal>
    ensures message { IfOk result (λ next. IfSome next (Passes messages.old messages.new)) }
    ensures rows { IfOk result (λ next. IfSome next (FindsRows messages.old)) }
    ensures readable { IfOk result (λ next. IfSome next HasReadableSchema) }
    ensures shorter { IfOk result (λ next. OnSome next (length (rest_of messages.new) < length (rest_of messages.old))) }
    ensures end { IfOk result (λ next. IfNone next (IsAtEnd (front_of (rest_of messages.old)) (left_of (rest_of messages.old)))) }
    ensures fault { IfErr result (RefusesNext (front_of (rest_of messages.old)) (left_of (rest_of messages.old))) }
{
    match messages.next(alloc) {
        None => Ok(None),
        Some(Ok(message)) => Ok(Some(message)),
        Some(Err(fault)) => Err(ColumnRefusal::from(fault)),
    }
}

/// The schema that a sub-stream begins with.
pub(crate) fn first_schema(
    alloc: Global,
    messages: &mut Messages<'_>,
) -> Result<SchemaSpec, ColumnRefusal>
    ensures schema { IfOk result (λ fields. Passes messages.old messages.new (Schema fields)) }
    ensures readable { IfOk result IsReadable }
    ensures err { IfErr result (RefusesFirst (front_of (rest_of messages.old)) (left_of (rest_of messages.old))) }
{
    match next(alloc, messages)? {
        Some(IpcMessage::Schema(schema)) => Ok(schema),
        _other => Err(ColumnRefusal::Order),
    }
}

/// The next message, which is no schema.
pub(crate) fn next_batch<'a>(
    alloc: Global,
    messages: &mut Messages<'a>,
) -> Result<AnyBatch<'a>, ColumnRefusal>
    ensures ok { IfOk result (PassesNext messages.old messages.new) }
    ensures shorter { OnOk result (length (rest_of messages.new) < length (rest_of messages.old)) }
    ensures err { IfErr result (RefusesOrder (front_of (rest_of messages.old)) (left_of (rest_of messages.old))) }
{
    match next(alloc, messages)? {
        None => Err(ColumnRefusal::Order),
        Some(message) => without_schema(message),
    }
}

fn without_schema(message: IpcMessage<'_>) -> Result<AnyBatch<'_>, ColumnRefusal>
    ensures ok { IfOk result (IsAnyBatch message.entry) }
    ensures err { IfErr result (λ refusal. (refusal ≡ Order) × IsTrue (is_schema message.entry)) }
{
    match message {
        IpcMessage::Dictionary { id, delta, batch } => Ok(AnyBatch::Dictionary {
            id,
            delta,
            batch,
        }),
        IpcMessage::Rows(batch) => Ok(AnyBatch::Rows(batch)),
        IpcMessage::Schema(_schema) => Err(ColumnRefusal::Order),
    }
}

/// Checks that no message follows.
pub(crate) fn end(alloc: Global, messages: &mut Messages<'_>) -> Result<(), ColumnRefusal>
    ensures end { OnOk result (IsAtEnd (front_of (rest_of messages.old)) (left_of (rest_of messages.old))) }
    ensures err { IfErr result (RefusesEnd (front_of (rest_of messages.old)) (left_of (rest_of messages.old))) }
{
    match next(alloc, messages)? {
        None => Ok(()),
        Some(_) => Err(ColumnRefusal::Order),
    }
}
