use arrow_schema::{
    ArrowType, DictSpec, Encoding, FieldList, FieldSpec, Name, SchemaSpec, add_schema, read_schema,
};
use flat_tables::{Builder, TableView};
use std::test::Fail;

/// The program writes no field with an encoding.
#[test]
fn reads_an_encoding_that_it_adds(rt: HostRuntime) -> Result<(), Fail> {
    let alloc = rt.alloc();
    let mut spec = SchemaSpec::new(alloc);
    spec.push(FieldSpec {
        name: Name::from_str(alloc, "key")?,
        kind: ArrowType::Utf8,
        dict: Some(DictSpec { id: -7, wide: true }),
        encoding: Encoding::Run,
        children: FieldList::new(alloc),
    })?;
    let mut builder = Builder::new(alloc);
    let root = add_schema(&mut builder, &spec)?;
    let bytes = builder.finish(root)?;

    let read = read_schema(alloc, TableView::root(&bytes)?)?;
    let field = read.get(0).ok_or("no field")?;
    assert_eq!(rt; field.encoding, Encoding::Run);
    assert!(rt; field.dict == Some(DictSpec { id: -7, wide: true }));
    Ok(())
}
