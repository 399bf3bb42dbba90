use arrow_buffers::BufferFault;
use arrow_schema::SchemaRefusal;
use flat_tables::FlatFault;
use std::test::Fail;

#[test]
fn shows_each_fault(rt: HostRuntime) -> Result<(), Fail> {
    let text = BufferFault::Short.to_string(rt.alloc())?;
    assert_eq!(rt; text.as_str(), "a buffer is too small for the rows");

    let refusal = SchemaRefusal::Flat(FlatFault::BadVtable);
    let text = format!(in rt.alloc(); "{refusal}")?;
    assert_eq!(rt; text.as_str(), "a vtable has a size below 4 or an odd one");
    Ok(())
}
