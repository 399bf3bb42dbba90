//! The encoding that the custom metadata of a field names.

ghost use Rattle.std.specs.Prelude.{◌≡◌, Option};
ghost use Rattle.std.specs.Option.{option_copied};
ghost use Rattle.arrow_schema.specs.Encodings as encodings;
ghost use Rattle.arrow_schema.specs.Reading.{encoding_of, encoding_from, encoding_with, of_pair};

use crate::spec::Encoding;
use flat_tables::{FlatFault, TableView, VectorView};

/// The encoding of a field. All of its custom metadata is read.
#[tactic(auto, unfolding(crate::specs::Reading::encoding_of))]
pub(crate) fn read_encoding(field: &TableView<'_>) -> Result<Encoding, FlatFault>
    ensures { result ≡ encoding_of field.now }
{
    match field.vector_at(6, 4)? {
        None => Ok(Encoding::None),
        Some(pairs) => Ok(read_pairs(&pairs)?),
    }
}

fn read_pairs(pairs: &VectorView<'_>) -> Result<Encoding, FlatFault>
    requires { pairs.now.width ≡ 4 }
    ensures { result ≡ encoding_from pairs.now 0 pairs.now.count Encoding.None }
{
    let mut found = Encoding::None;
    for place in 0..pairs.len() {
        let pair = pairs.table(place)?;
        found = read_pair(pair, found)?;
    }
    Ok(found)
}

/// The encoding that a pair names, where none was named before it.
fn read_pair(pair: Option<TableView<'_>>, found: Encoding) -> Result<Encoding, FlatFault>
    ensures { result ≡ of_pair found pair.entry }
{
    match pair {
        None => Ok(found),
        Some(pair) => {
            let key = pair.text_at(0)?;
            let value = pair.text_at(1)?;
            Ok(encoding_with(key, value, found))
        }
    }
}

fn encoding_with(key: Option<&[u8]>, value: Option<&[u8]>, found: Encoding) -> Encoding
    ensures { result ≡ encoding_with (option_copied key.entry) (option_copied value.entry) found }
{
    match found {
        Encoding::None if is_encoding_key(key) => encoding_by(value),
        found => found,
    }
}

fn is_encoding_key(key: Option<&[u8]>) -> bool
    ensures { result ≡ encodings.is_encoding_key (option_copied key.entry) }
{
    match key {
        None => false,
        Some(key) => key == b"encoding".as_slice(),
    }
}

fn encoding_by(value: Option<&[u8]>) -> Encoding
    ensures { result ≡ encodings.encoding_by (option_copied value.entry) }
{
    match value {
        None => Encoding::Other,
        Some(value) => encoding_named(value),
    }
}

fn encoding_named(value: &[u8]) -> Encoding
    ensures { result ≡ encodings.encoding_named value.now }
{
    if value == b"plain".as_slice() {
        Encoding::Plain
    } else if value == b"delta".as_slice() {
        Encoding::Delta
    } else if value == b"run".as_slice() {
        Encoding::Run
    } else {
        Encoding::Other
    }
}
