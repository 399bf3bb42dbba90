//! Messages that are read by one loop over their fields.

ghost use Rattle.std.specs.Prelude.{◌≡◌, ◌<◌, ℕ, List, fold, IfOk, IfErr, OnOk};
ghost use Rattle.otlp_wire.specs.Wire.{Entry, entry, value_of};
ghost use Rattle.otlp_wire.specs.Fields.{fields_of};
ghost use Rattle.otlp_messages.specs.declared.messages.Message.{Message};
ghost use Rattle.otlp_messages.specs.declared.messages.FieldKind.TheVariants as kinds;
ghost use Rattle.otlp_messages.specs.declared.messages.Message.TheVariants as messages;
ghost use Rattle.otlp_messages.specs.declared.messages.ItemKind.{ItemKind};
ghost use Rattle.otlp_messages.specs.Limits.{mark_limit};
ghost use Rattle.otlp_messages.specs.Table.{kind_of, item_of, mark_of};
ghost use Rattle.otlp_messages.specs.Defects.{IsFine};
ghost use Rattle.otlp_messages.specs.Fine.{FineValue};
ghost use Rattle.otlp_messages.specs.Rows.{embedded_in, many_in};
ghost use Rattle.otlp_codec.specs.Limits.{level_limit};
ghost use Rattle.otlp_codec.specs.PartRefusals.{Refuses, RefusesValue};
ghost use Rattle.otlp_codec.specs.Groups.{value_in, pair_in};

use crate::pool::{Pool, Repeated, spare_list};
use crate::refusal::ReadRefusal;
use crate::values::{empty_pair, fill_pair, fill_value};
use otlp_messages::{ItemKind, MARKS, Message, row_of};
use otlp_model::{Items, MAX_DEPTH, Pair, Value};
use otlp_wire::{Field, Fields, Wire};
use std::alloc::Global;

/// How many levels of members may be below a value that is in no array and no key-value list.
pub(crate) const LEVELS: u8 = MAX_DEPTH as u8 - 1;

/// A message of which each field is read over what was read before.
pub(crate) trait Submessage {
    /// Which message it is.
    ghost named: { Message };

    /// What it is without any field.
    ghost none: { Self };

    /// What it is after one more field.
    ghost step: { Self → Entry → Self };

    /// What the bytes of the message say.
    ghost reads: { List ℕ → Self };

    fn message() -> Message
        ensures { result ≡ named };

    fn empty(alloc: Global) -> Self
        ensures { result ≡ none };

    fn take(&mut self, pool: &mut Pool, field: &Field<'_>) -> Result<(), ReadRefusal>
        ensures ok { OnOk result (self.new ≡ step self.old (entry field.now)) }
        ensures fine { IfOk result (λ _. FineValue (kind_of named field.now.number) level_limit (value_of field.now.value)) }
        ensures fault { IfErr result (RefusesValue (kind_of named field.now.number) level_limit (value_of field.now.value)) };

    /// One field after the other gives what the bytes say.
    ghost passes: { (bytes : List ℕ) → fold step none (fields_of bytes) ≡ reads bytes };
}

/// A message that is a main item of a request.
pub(crate) trait ItemMessage: Submessage {
    /// Which of the three it is.
    ghost of: { ItemKind };

    fn of() -> ItemKind
        ensures { result ≡ of };

    ghost is_item: { Self.Submessage.named ≡ item_of of };
}

/// Reads a message, in one pass over its bytes.
#[inline]
pub(crate) fn read_part<P: Submessage + Drop>(
    pool: &mut Pool,
    bytes: &[u8],
) -> Result<P, ReadRefusal>
    ensures value { IfOk result (λ part. IsFine P.named level_limit bytes.now × (part ≡ P.reads bytes.now)) }
    ensures fault { IfErr result (Refuses P.named level_limit bytes.now) }
{
    let mut part = P::empty(pool.alloc());
    fill(pool, &mut part, bytes)?;
    Ok(part)
}

/// Reads a message into one that is empty.
fn fill<P: Submessage>(pool: &mut Pool, part: &mut P, bytes: &[u8]) -> Result<(), ReadRefusal>
    requires { part.old ≡ P.none }
    ensures value { OnOk result (IsFine P.named level_limit bytes.now × (part.new ≡ P.reads bytes.now)) }
    ensures fault { IfErr result (Refuses P.named level_limit bytes.now) }
{
    let mut seen = [false; MARKS];
    'fields: for next in Fields::new(bytes) {
        let Ok(field) = next else {
            return Err(ReadRefusal::BadMessage);
        };
        let mark = mark_of::<P>(field.number);
        if seen[mark] {
            return Err(ReadRefusal::Repeated);
        }
        seen[mark] = mark != 0;
        part.take(pool, &field)?;
    }
    Ok(())
}

/// The mark of a field of the message. It stays a call of its own, which looks it up in a table; a jump would take longer.
#[inline(never)]
fn mark_of<P: Submessage>(number: u32) -> usize
    ensures mark { result ≡ mark_of P.named number }
    ensures few { result < mark_limit }
{
    row_of(P::message(), number).mark
}

/// Reads one more message of those that may occur any number of times.
#[inline]
pub(crate) fn take_more<P: Submessage + Repeated>(
    pool: &mut Pool,
    to: &mut Items<P>,
    value: &Wire<'_>,
) -> Result<(), ReadRefusal>
    ensures ok { OnOk result (to.new ≡ many_in P.reads to.old (value_of value.now)) }
    ensures fine { IfOk result (λ _. FineValue (kinds.Embedded P.named) level_limit (value_of value.now)) }
    ensures fault { IfErr result (RefusesValue (kinds.Embedded P.named) level_limit (value_of value.now)) }
{
    let Wire::Bytes(bytes) = value else {
        return Err(ReadRefusal::BadMessage);
    };
    if to.is_empty() {
        *to = spare_list(pool);
    }
    let part = to.push_mut(P::empty(pool.alloc()))?;
    fill(pool, part, bytes)
}

/// Reads one more main item.
#[inline]
pub(crate) fn take_items<I: ItemMessage + Repeated>(
    pool: &mut Pool,
    to: &mut Items<I>,
    value: &Wire<'_>,
) -> Result<(), ReadRefusal>
    ensures ok { OnOk result (to.new ≡ many_in I.reads to.old (value_of value.now)) }
    ensures fine { IfOk result (λ _. FineValue (kinds.Embedded (item_of I.of)) level_limit (value_of value.now)) }
    ensures fault { IfErr result (RefusesValue (kinds.Embedded (item_of I.of)) level_limit (value_of value.now)) }
{
    take_more(pool, to, value)
}

/// Reads one more attribute.
#[inline]
pub(crate) fn take_pairs(
    pool: &mut Pool,
    to: &mut Items<Pair>,
    value: &Wire<'_>,
) -> Result<(), ReadRefusal>
    ensures ok { OnOk result (to.new ≡ many_in pair_in to.old (value_of value.now)) }
    ensures fine { IfOk result (λ _. FineValue (kinds.Embedded messages.KeyValue) level_limit (value_of value.now)) }
    ensures fault { IfErr result (RefusesValue (kinds.Embedded messages.KeyValue) level_limit (value_of value.now)) }
{
    let Wire::Bytes(bytes) = value else {
        return Err(ReadRefusal::BadMessage);
    };
    if to.is_empty() {
        *to = pool.pairs()?;
    }
    let alloc = pool.alloc();
    let pair = to.push_mut(empty_pair(alloc))?;
    fill_pair(alloc, LEVELS, pair, bytes)
}

/// Reads a value that is in no array and no key-value list.
#[inline]
pub(crate) fn take_value(alloc: Global, to: &mut Value, value: &Wire<'_>) -> Result<(), ReadRefusal>
    ensures ok { OnOk result (to.new ≡ embedded_in value_in to.old (value_of value.now)) }
    ensures fine { IfOk result (λ _. FineValue (kinds.Embedded messages.AnyValue) level_limit (value_of value.now)) }
    ensures fault { IfErr result (RefusesValue (kinds.Embedded messages.AnyValue) level_limit (value_of value.now)) }
{
    let Wire::Bytes(bytes) = value else {
        return Err(ReadRefusal::BadMessage);
    };
    *to = Value::Empty;
    fill_value(alloc, LEVELS, to, bytes)
}
