//! Writing, from the last field to the first.

ghost use Rattle.std.specs.Prelude.{◌≡◌, ℕ, List, ◌++◌, [], ◌∷◌, min, length, map, IsTrue, OnOk, OnErr};
ghost use Rattle.std.specs.List.{list_all};
ghost use Rattle.otlp_wire.specs.Wire as wire;
ghost use Rattle.otlp_wire.specs.Wire.{IsNumber};
ghost use Rattle.otlp_messages.specs.Kept.{KeepsEnd};
ghost use Rattle.otlp_messages.specs.Canon.{canon_row, canon, bytes_row, many_row};
ghost use Rattle.otlp_model.specs.Limits.{count_cap};
ghost use Rattle.lists.specs.Bytes.{is_real_text, is_real_octets};
ghost use Rattle.otlp_model.specs.Each.{Each};
ghost use Rattle.otlp_model.specs.Real.{is_real_value, is_real_pair, are_real_pairs};
ghost use Rattle.otlp_model.specs.declared.value.Value as values;
ghost use Rattle.otlp_codec.specs.Canonical.{canon_value, canon_pair, members_rows};

use crate::lengths::len_value;
use otlp_messages::Backward;
use otlp_model::{Items, Octets, Pair, Text, Value};
use std::alloc::AllocError;

/// A message that is written.
pub(crate) trait Spelled {
    /// Its canonical spelling.
    ghost spelled: { Self → List ℕ };

    /// A program can hold what is written of it: texts are UTF-8, and numbers fit their types.
    ghost is_real: { Self → Type 0 };

    /// Writes it before what is written. What was written was read, so a program can hold it.
    fn write(&self, to: &mut Backward) -> Result<(), AllocError>
        ensures ok { OnOk result (to.new ≡ spelled self.now ++ to.old) }
        ensures err { OnErr result (KeepsEnd to.old to.new) }
        ensures real { OnOk result (is_real self.now) };

    /// How many bytes it has, or 2^63 where there are more.
    fn len(&self) -> u64
        ensures { result ≡ min (length (spelled self.now)) count_cap };
}

/// Writes a message that occurs once.
#[inline]
#[tactic(auto, using(otlp_messages::proofs::Keeping::keeps_more, otlp_messages::proofs::Keeping::keeps_four))]
pub(crate) fn write_one<P: Spelled>(
    to: &mut Backward,
    number: u32,
    part: &P,
) -> Result<(), AllocError>
    requires { IsNumber number }
    ensures ok { OnOk result (to.new ≡ canon_row number (bytes_row (P.spelled part.now)) ++ to.old) }
    ensures err { OnErr result (KeepsEnd to.old to.new) }
    ensures real { OnOk result (P.is_real part.now) }
{
    let before = to.len();
    part.write(to)?;
    let size = to.len() - before;
    to.close_row(number, size)?;
    Ok(())
}

/// Writes the messages of a repeated field.
#[inline]
#[tactic(auto, using(otlp_messages::proofs::Keeping::keeps_more, otlp_messages::proofs::Keeping::keeps_four))]
pub(crate) fn write_more<P: Spelled>(
    to: &mut Backward,
    number: u32,
    parts: &[P],
) -> Result<(), AllocError>
    requires { IsNumber number }
    ensures ok { OnOk result (to.new ≡ canon_row number (many_row (map P.spelled parts.now)) ++ to.old) }
    ensures err { OnErr result (KeepsEnd to.old to.new) }
    ensures real { OnOk result (Each P.is_real parts.now) }
{
    for place in (0..parts.len()).rev() {
        let before = to.len();
        parts[place].write(to)?;
        let size = to.len() - before;
        to.close_field(number, size)?;
    }
    Ok(())
}

/// Writes a text.
#[inline]
#[tactic(auto, using(lists::proofs::RealBytes::real_text))]
pub(crate) fn write_text(to: &mut Backward, number: u32, text: &Text) -> Result<(), AllocError>
    requires { IsNumber number }
    ensures ok { OnOk result (to.new ≡ canon_row number (bytes_row text.now) ++ to.old) }
    ensures err { OnErr result (KeepsEnd to.old to.new) }
    ensures real { OnOk result (IsTrue (is_real_text text.now)) }
{
    to.put_bytes_row(number, text.as_slice())
}

/// Writes bytes.
#[inline]
#[tactic(auto, using(lists::proofs::RealBytes::real_octets))]
pub(crate) fn write_octets(
    to: &mut Backward,
    number: u32,
    octets: &Octets,
) -> Result<(), AllocError>
    requires { IsNumber number }
    ensures ok { OnOk result (to.new ≡ canon_row number (bytes_row octets.now) ++ to.old) }
    ensures err { OnErr result (KeepsEnd to.old to.new) }
    ensures real { OnOk result (IsTrue (is_real_octets octets.now)) }
{
    to.put_bytes_row(number, octets.as_slice())
}

impl Spelled for Value {
    ghost spelled = { canon_value };

    ghost is_real = { λ value. IsTrue (is_real_value value) };

    fn write(&self, to: &mut Backward) -> Result<(), AllocError> {
        write_value(to, self)
    }

    fn len(&self) -> u64 {
        len_value(self)
    }
}

/// Writes an `AnyValue`.
#[cycle(writing)]
#[tactic(auto, using(lists::proofs::RealBytes::real_text, lists::proofs::RealBytes::real_octets, otlp_model::proofs::Levels::is_real_str, otlp_model::proofs::Levels::is_real_bytes))]
fn write_value(to: &mut Backward, value: &Value) -> Result<(), AllocError>
    ensures ok { OnOk result (to.new ≡ canon_value value.now ++ to.old) }
    ensures err { OnErr result (KeepsEnd to.old to.new) }
    ensures real { OnOk result (IsTrue (is_real_value value.now)) }
{
    match value {
        Value::Empty => Ok(()),
        Value::Str(text) => to.put_bytes_field(1, text.as_slice()),
        Value::Bool(truth) => to.put_varint_field(2, u64::from(*truth)),
        Value::Int(number) => to.put_varint_field(3, number.cast_unsigned()),
        Value::Double(bits) => to.put_fixed64_field(4, *bits),
        Value::Array(members) => write_array(to, members),
        Value::Map(pairs) => write_map(to, pairs),
        Value::Bytes(bytes) => to.put_bytes_field(7, bytes.as_slice()),
    }
}

/// Writes an array as the member of the oneof that it is.
#[cycle(writing)]
#[tactic(auto, using(otlp_messages::proofs::Keeping::keeps_more, otlp_messages::proofs::Keeping::keeps_four, otlp_model::proofs::Levels::is_real_array))]
fn write_array(to: &mut Backward, members: &Items<Value>) -> Result<(), AllocError>
    ensures ok { OnOk result (to.new ≡ canon_row 5 (wire.Bytes (canon (members_rows (map canon_value members.now))) ∷ []) ++ to.old) }
    ensures err { OnErr result (KeepsEnd to.old to.new) }
    ensures real { OnOk result (IsTrue (is_real_value (values.Array members.now))) }
{
    let before = to.len();
    write_members(to, members.as_slice())?;
    let size = to.len() - before;
    to.close_field(5, size)?;
    Ok(())
}

/// Writes a key-value list as the member of the oneof that it is.
#[cycle(writing)]
#[tactic(auto, using(otlp_messages::proofs::Keeping::keeps_more, otlp_messages::proofs::Keeping::keeps_four, otlp_model::proofs::Levels::is_real_map))]
fn write_map(to: &mut Backward, pairs: &Items<Pair>) -> Result<(), AllocError>
    ensures ok { OnOk result (to.new ≡ canon_row 6 (wire.Bytes (canon (members_rows (map canon_pair pairs.now))) ∷ []) ++ to.old) }
    ensures err { OnErr result (KeepsEnd to.old to.new) }
    ensures real { OnOk result (IsTrue (is_real_value (values.Map pairs.now))) }
{
    let before = to.len();
    write_pairs(to, 1, pairs.as_slice())?;
    let size = to.len() - before;
    to.close_field(6, size)?;
    Ok(())
}

/// Writes the members of an array.
#[cycle(writing)]
#[tactic(auto, using(otlp_messages::proofs::Keeping::keeps_more, otlp_messages::proofs::Keeping::keeps_four))]
fn write_members(to: &mut Backward, members: &[Value]) -> Result<(), AllocError>
    ensures ok { OnOk result (to.new ≡ canon_row 1 (many_row (map canon_value members.now)) ++ to.old) }
    ensures err { OnErr result (KeepsEnd to.old to.new) }
    ensures real { OnOk result (IsTrue (list_all is_real_value members.now)) }
{
    for place in (0..members.len()).rev() {
        let before = to.len();
        write_value(to, &members[place])?;
        let size = to.len() - before;
        to.close_field(1, size)?;
    }
    Ok(())
}

/// Writes the pairs of a repeated field.
#[cycle(writing)]
#[tactic(auto, using(otlp_messages::proofs::Keeping::keeps_more, otlp_messages::proofs::Keeping::keeps_four))]
pub(crate) fn write_pairs(to: &mut Backward, number: u32, pairs: &[Pair]) -> Result<(), AllocError>
    requires { IsNumber number }
    ensures ok { OnOk result (to.new ≡ canon_row number (many_row (map canon_pair pairs.now)) ++ to.old) }
    ensures err { OnErr result (KeepsEnd to.old to.new) }
    ensures real { OnOk result (IsTrue (are_real_pairs pairs.now)) }
{
    for place in (0..pairs.len()).rev() {
        let before = to.len();
        write_pair(to, &pairs[place])?;
        let size = to.len() - before;
        to.close_field(number, size)?;
    }
    Ok(())
}

/// Writes a `KeyValue`.
#[cycle(writing)]
#[tactic(auto, using(otlp_messages::proofs::Keeping::keeps_more, otlp_messages::proofs::Keeping::keeps_four))]
fn write_pair(to: &mut Backward, pair: &Pair) -> Result<(), AllocError>
    ensures ok { OnOk result (to.new ≡ canon_pair pair.now ++ to.old) }
    ensures err { OnErr result (KeepsEnd to.old to.new) }
    ensures real { OnOk result (IsTrue (is_real_pair pair.now)) }
{
    let before = to.len();
    write_value(to, &pair.value)?;
    let size = to.len() - before;
    to.close_row(2, size)?;
    write_text(to, 1, &pair.key)?;
    Ok(())
}
