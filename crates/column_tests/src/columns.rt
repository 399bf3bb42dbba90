use arrow_ipc::{BatchBuilder, write_schema};
use arrow_schema::{ArrowType, DictSpec, Encoding, FieldList, FieldSpec, Name, SchemaSpec};
use otap_cells::Kind;
use otap_columns::{ColumnRefusal, Reader};
use std::alloc::{AllocError, Global};
use std::test::Fail;

/// A column of texts that has a dictionary.
fn put_schema(alloc: Global, to: &mut Vec<u8>) -> Result<(), AllocError> {
    let mut spec = SchemaSpec::new(alloc);
    spec.push(FieldSpec {
        name: Name::from_str(alloc, "key")?,
        kind: ArrowType::Utf8,
        dict: Some(DictSpec { id: 7, wide: false }),
        encoding: Encoding::None,
        children: FieldList::new(alloc),
    })?;
    write_schema(to, &spec)
}

/// A batch of two texts, `a` and `bc`.
fn put_two(alloc: Global, to: &mut Vec<u8>) -> Result<(), AllocError> {
    let mut batch = BatchBuilder::new(alloc, 2);
    batch.add(2, 0)?;
    batch.add_buffer(&[])?;
    batch.add_buffer(&[0, 0, 0, 0, 1, 0, 0, 0, 3, 0, 0, 0])?;
    batch.add_buffer(b"abc")?;
    batch.finish_dictionary(to, 7, false)
}

/// One more text, `d`.
fn put_delta(alloc: Global, to: &mut Vec<u8>) -> Result<(), AllocError> {
    let mut batch = BatchBuilder::new(alloc, 1);
    batch.add(1, 0)?;
    batch.add_buffer(&[])?;
    batch.add_buffer(&[0, 0, 0, 0, 1, 0, 0, 0])?;
    batch.add_buffer(b"d")?;
    batch.finish_dictionary(to, 7, true)
}

/// A record batch of one row.
fn put_row(alloc: Global, to: &mut Vec<u8>, index: u8) -> Result<(), AllocError> {
    let mut batch = BatchBuilder::new(alloc, 1);
    batch.add(1, 0)?;
    batch.add_buffer(&[])?;
    batch.add_buffer(&[index])?;
    batch.finish_rows(to)
}

#[test]
fn a_dictionary_and_its_delta_are_held(rt: HostRuntime) -> Result<(), Fail> {
    let alloc = rt.alloc();
    let mut first = Vec::new(alloc);
    put_schema(alloc, &mut first)?;
    put_two(alloc, &mut first)?;
    put_row(alloc, &mut first, 1)?;
    let mut reader = Reader::start(alloc, Kind::LogAttrs, &first)?;
    assert_eq!(rt; reader.held(), 3 + 2 * 8);

    let mut second = Vec::new(alloc);
    put_delta(alloc, &mut second)?;
    put_row(alloc, &mut second, 2)?;
    reader.take(&second)?;
    assert_eq!(rt; reader.held(), 4 + 3 * 8);

    let mut third = Vec::new(alloc);
    put_row(alloc, &mut third, 3)?;
    let refusal = reader.take(&third);
    assert!(rt; matches!(refusal, Err(ColumnRefusal::BadIndex)));
    assert!(rt; reader.is_broken());
    Ok(())
}
