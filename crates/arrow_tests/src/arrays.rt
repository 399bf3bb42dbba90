use arrow_arrays::ArrayPlace;
use arrow_ipc::{BatchBuilder, rows_at};
use arrow_schema::ArrowType;
use std::test::Fail;

#[test]
fn reads_one_cell(rt: HostRuntime) -> Result<(), Fail> {
    let mut builder = BatchBuilder::new(rt.alloc(), 2);
    builder.add(2, 1)?;
    builder.add_buffer(&[0b01])?;
    builder.add_buffer(&[0, 0, 0, 0, 3, 0, 0, 0, 4, 0, 0, 0])?;
    builder.add_buffer(b"joe\xFF")?;
    let mut bytes = Vec::new(rt.alloc());
    builder.finish_rows(&mut bytes)?;

    let batch = rows_at(&bytes, 0).ok_or("no record batch")?;
    let values = ArrayPlace::of_values(ArrowType::Utf8);
    values.check(&batch)?;
    assert_eq!(rt; values.cell(&batch, 0), Some(b"joe".as_slice()));
    assert_eq!(rt; values.cell(&batch, 1), None);
    Ok(())
}
