//! Bytes as a quoted text has them.
ghost use Rattle.std.specs.Prelude.{◌≡◌, ◌++◌, OnOk};
ghost use Rattle.std.specs.List.{list_any};
ghost use Rattle.otap_gateway.specs.Quoting.{quoted, quoted_byte, escaped, is_special};

use std::alloc::AllocError;

/// Appends a text as it is between double quotes: a control character, the double quote and the
/// backslash as `\x` and two hexadecimal digits, every other byte as it is.
#[tactic(auto, using(crate::proofs::Plain::quoted_plain))]
pub(crate) fn push_quoted(out: &mut Vec<u8>, text: &[u8]) -> Result<(), AllocError>
    ensures { OnOk result (out.new.items ≡ out.old.items ++ quoted text.now) }
{
    if has_special(text) {
        push_escaping(out, text)
    } else {
        out.extend_from_slice(text)
    }
}

/// Whether a byte of the text is escaped. Most texts have none, and are appended as a whole; so all bytes are looked at, many
/// at a time.
fn has_special(text: &[u8]) -> bool
    ensures { result ≡ list_any is_special text.now }
{
    let mut found = false;
    'bytes: for byte in text {
        found |= is_special(*byte);
    }
    found
}

fn is_special(byte: u8) -> bool
    ensures { result ≡ is_special byte }
{
    matches!(byte, 0..=0x1f | b'"' | b'\\' | 0x7f)
}

fn push_escaping(out: &mut Vec<u8>, text: &[u8]) -> Result<(), AllocError>
    ensures { OnOk result (out.new.items ≡ out.old.items ++ quoted text.now) }
{
    for byte in text {
        push_byte(out, *byte)?;
    }
    Ok(())
}

fn push_byte(out: &mut Vec<u8>, byte: u8) -> Result<(), AllocError>
    ensures { OnOk result (out.new.items ≡ out.old.items ++ quoted_byte byte) }
{
    if is_special(byte) {
        push_escape(out, byte)
    } else {
        Ok(out.push(byte)?)
    }
}

fn push_escape(out: &mut Vec<u8>, byte: u8) -> Result<(), AllocError>
    ensures { OnOk result (out.new.items ≡ out.old.items ++ escaped byte) }
{
    let mut digits = [0; 2];
    let Ok(()) = hex::encode_to_slice([byte], &mut digits) else {
        unreachable!()
    };
    out.extend_from_slice(b"\\x")?;
    out.extend_from_slice(&digits)
}
