//! The lines that several jobs print.
ghost use Rattle.std.specs.Prelude.{◌≡◌, ◌++◌, IfOk, OnOk, string_bytes};
ghost use Rattle.std.specs.Fmt.{signed_decimal};
ghost use Rattle.otap_capture.specs.Batch.{content_of};
ghost use Rattle.otap_gateway.specs.Lines.{reset_line, batch_head, head_line, payload_head, refusal_text, refused_line, request_line, or_dash, damage_line, why_name};

use crate::texts::numbers::push_signed;
use crate::texts::quoting::push_quoted;
use itoa::Buffer;
use otap_capture::{Damage, Payload, Why};
use std::alloc::{AllocError, Global};

/// Appends the head of a line for a batch: the number of its frame, and its id.
#[inline(always)]
pub(crate) fn push_head(to: &mut Vec<u8>, number: u64, id: i64) -> Result<(), AllocError>
    ensures { OnOk result (to.new.items ≡ to.old.items ++ batch_head number (signed_decimal id)) }
{
    push_batch_head(to, number, Buffer::new().format(id).as_bytes())
}

/// Appends the head of a line for a batch, by the text of its id.
#[inline(always)]
fn push_batch_head(to: &mut Vec<u8>, number: u64, id: &[u8]) -> Result<(), AllocError>
    ensures { OnOk result (to.new.items ≡ to.old.items ++ batch_head number id.now) }
{
    to.extend_from_slice(b"frame ")?;
    to.extend_from_slice(Buffer::new().format(number).as_bytes())?;
    to.extend_from_slice(b": batch ")?;
    to.extend_from_slice(id)
}

/// Appends the line that the lines for a batch begin with.
pub(crate) fn push_head_line(to: &mut Vec<u8>, number: u64, id: i64) -> Result<(), AllocError>
    ensures { OnOk result (to.new.items ≡ to.old.items ++ head_line number id) }
{
    push_head(to, number, id)?;
    to.push(b'\n')?;
    Ok(())
}

/// Appends the head of a line for a payload: its type and its schema id.
pub(crate) fn push_payload_head(to: &mut Vec<u8>, payload: &Payload<'_>) -> Result<(), AllocError>
    ensures { OnOk result (to.new.items ≡ to.old.items ++ payload_head (content_of payload.now)) }
{
    to.extend_from_slice(b"payload ")?;
    push_signed(to, i64::from(payload.kind))?;
    to.extend_from_slice(b" schema \"")?;
    push_quoted(to, payload.schema_id.as_bytes())?;
    to.push(b'"')?;
    Ok(())
}

/// The line for a reset.
pub(crate) fn reset_line(alloc: Global, number: u64) -> Result<String, AllocError>
    ensures { IfOk result (λ line. string_bytes line ≡ reset_line number) }
{
    Ok(format!(in alloc; "frame {number}: reset\n")?)
}

/// The line for a refused batch, with a dash for an id or a payload type that is none.
pub(crate) fn refused_line(
    alloc: Global,
    number: u64,
    id: Option<i64>,
    stage: u8,
    cause: &str,
    payload: Option<i64>,
) -> Result<Vec<u8>, AllocError>
    ensures { IfOk result (λ line. line.items ≡ refused_line number id stage cause.now payload) }
{
    let id = or_dash(alloc, id)?;
    let text = refusal_text(alloc, stage, cause, payload)?;
    let mut line = Vec::new(alloc);
    push_batch_head(&mut line, number, id.as_bytes())?;
    let rest = format!(in alloc; " refused: {text}\n")?;
    line.extend_from_slice(rest.as_bytes())?;
    Ok(line)
}

/// What a refusal says, in its line as in a status.
pub(crate) fn refusal_text(
    alloc: Global,
    stage: u8,
    cause: &str,
    payload: Option<i64>,
) -> Result<String, AllocError>
    ensures { IfOk result (λ text. string_bytes text ≡ refusal_text stage cause.now payload) }
{
    let payload = or_dash(alloc, payload)?;
    Ok(format!(in alloc; "stage {stage} {cause} payload {payload}")?)
}

/// A number, or a dash where there is none.
pub(crate) fn or_dash(alloc: Global, number: Option<i64>) -> Result<String, AllocError>
    ensures { IfOk result (λ text. string_bytes text ≡ or_dash number) }
{
    match number {
        Some(number) => format!(in alloc; "{number}"),
        None => String::from_str(alloc, "-"),
    }
}

/// The line for a refused request.
pub(crate) fn request_line(alloc: Global, number: u64, cause: &str) -> Result<Vec<u8>, AllocError>
    ensures { IfOk result (λ line. line.items ≡ request_line number cause.now) }
{
    let line = format!(in alloc; "frame {number}: request refused: {cause}\n")?;
    Ok(line.into_bytes())
}

/// The line for a damage of the capture.
pub(crate) fn damage_line(alloc: Global, damage: Damage) -> Result<String, AllocError>
    ensures { IfOk result (λ line. string_bytes line ≡ damage_line damage) }
{
    let at = damage.at;
    let why = why_name(damage.why);
    Ok(format!(in alloc; "damage at {at}: {why}\n")?)
}

fn why_name(why: Why) -> &'static str
    ensures { result.now ≡ why_name why }
{
    match why {
        Why::Truncated => "Truncated",
        Why::BadFrame => "BadFrame",
        Why::TooLong => "TooLong",
        Why::Endless => "Endless",
    }
}
