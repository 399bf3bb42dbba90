//! `unfile`: the batches of an Arrow file. What is written of it is made here; [`crate::runs::unfiling`] reads and writes.
ghost use Rattle.std.specs.Prelude.{◌≡◌, ◌++◌, [], ◌∷◌, IfOk, OnOk, MatchOption};
ghost use Rattle.std.specs.List.{flat_map};
ghost use Rattle.otap_capture.specs.Batch.{canon_batch};
ghost use Rattle.otap_gateway.specs.Unfiling.{IsNoUnfile, IsUnfile, batch_of, refusal_name, refused_file, unfile_words};
ghost use Rattle.otap_gateway.specs.UnfilingSteps.{IsOfFile, first_record};

use crate::jobs::command::any_signal;
use crate::jobs::payload_type::kind_of;
use arrow_file::{FileRefusal, FileView};
use flat_tables::FlatFault;
use otap_cells::Kind;
use otlp_messages::Backward;
use otlp_model::Signal;
use std::alloc::{AllocError, Global};

/// The job `unfile`: the record batches of a file become payloads of this type, which the signal has.
#[derive(Clone, Copy)]
pub(crate) struct Unfile {
    pub(crate) signal: Signal,
    pub(crate) kind: Kind,
}

/// The job of three words.
pub(crate) fn unfile_of(job: &str, signal: &str, kind: &str) -> Option<Unfile>
    ensures { MatchOption result (IsNoUnfile (job.now ∷ signal.now ∷ kind.now ∷ []))
        (λ unfile. IsUnfile unfile × (job.now ∷ signal.now ∷ kind.now ∷ [] ≡ unfile_words unfile)) }
{
    match job {
        "unfile" => {
            let signal = any_signal(signal)?;
            let kind = kind_of(signal, kind)?;
            Some(Unfile { signal, kind })
        }
        _ => None,
    }
}

/// How many bytes a batch message has beside its record at most.
const BESIDE: usize = 23;

/// The batch message of the first record batch: its record has the schema and all dictionaries before the rows.
pub(crate) fn first_message(
    alloc: Global,
    kind: Kind,
    file: &FileView<'_>,
    rows: &[u8],
) -> Result<Vec<u8>, AllocError>
    ensures { IfOk result (λ message. message.items ≡ canon_batch (batch_of kind 0 (first_record file.now rows.now))) }
{
    let mut message = Backward::new(alloc);
    message.reserve(first_len(file, rows).saturating_add(BESIDE))?;
    message.push_slice(rows)?;
    put_dictionaries(&mut message, file)?;
    message.push_slice(file.schema())?;
    close_message(&mut message, kind, 0)?;
    Ok(message.finish())
}

/// The batch message of a later record batch.
pub(crate) fn later_message(
    alloc: Global,
    kind: Kind,
    id: u32,
    rows: &[u8],
) -> Result<Vec<u8>, AllocError>
    ensures { IfOk result (λ message. message.items ≡ canon_batch (batch_of kind id rows.now)) }
{
    let mut message = Backward::new(alloc);
    message.reserve(rows.len().saturating_add(BESIDE))?;
    message.push_slice(rows)?;
    close_message(&mut message, kind, id)?;
    Ok(message.finish())
}

/// How long the record of the first payload is.
fn first_len(file: &FileView<'_>, rows: &[u8]) -> usize {
    let mut len = file.schema().len().saturating_add(rows.len());
    'dictionaries: for place in 0..file.dictionaries() {
        if let Some(dictionary) = file.dictionary(place) {
            len = len.saturating_add(dictionary.len());
        }
    }
    len
}

/// Writes all dictionaries, the last one first.
fn put_dictionaries(message: &mut Backward, file: &FileView<'_>) -> Result<(), AllocError>
    ensures { OnOk result (message.new ≡ flat_map (λ d. d) file.now.dictionaries ++ message.old) }
{
    'dictionaries: for place in (0..file.dictionaries()).rev() {
        let Some(dictionary) = file.dictionary(place) else {
            unreachable!()
        };
        message.push_slice(dictionary)?;
    }
    Ok(())
}

/// Makes a record the payload of a batch with this id.
fn close_message(message: &mut Backward, kind: Kind, id: u32) -> Result<(), AllocError>
    ensures { OnOk result (message.new ≡ canon_batch (batch_of kind id message.old)) }
{
    let size = message.len();
    message.close_row(3, size)?;
    message.put_signed_row(2, i64::from(kind.number()))?;
    message.put_bytes_row(1, b"0")?;
    let size = message.len();
    message.close_field(2, size)?;
    message.put_signed_row(1, i64::from(id))
}

/// The line of a refused file. Out of memory is passed on.
pub(crate) fn refusal_line(alloc: Global, refusal: FileRefusal) -> Result<Vec<u8>, AllocError>
    ensures text { IfOk result (λ line. line.items ≡ refused_file refusal) }
    ensures known { IfOk result (λ line. IsOfFile refusal) }
{
    let name = refusal_name(refusal)?;
    let line = format!(in alloc; "file refused: {name}\n")?;
    Ok(line.into_bytes())
}

fn refusal_name(refusal: FileRefusal) -> Result<&'static str, AllocError>
    ensures text { IfOk result (λ name. name.now ≡ refusal_name refusal) }
    ensures known { IfOk result (λ name. IsOfFile refusal) }
{
    match refusal {
        FileRefusal::TooLong => Ok("TooLong"),
        FileRefusal::BadMagic => Ok("BadMagic"),
        FileRefusal::BadFooter(FlatFault::OutOfRange) => Ok("BadFooter.OutOfRange"),
        FileRefusal::BadFooter(FlatFault::BadVtable) => Ok("BadFooter.BadVtable"),
        FileRefusal::BadSchema => Ok("BadSchema"),
        FileRefusal::BadBlock => Ok("BadBlock"),
        FileRefusal::Memory(error) => Err(error),
    }
}
