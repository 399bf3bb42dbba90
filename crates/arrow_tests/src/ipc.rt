use arrow_ipc::{BatchBuilder, rows_at, write_schema};
use arrow_schema::SchemaSpec;
use std::test::Fail;

/// How many rows the record batch at a place has.
fn count_at(bytes: &[u8], place: usize) -> Option<u64> {
    Some(rows_at(bytes, place)?.rows())
}

#[test]
fn finds_rows_at_their_place_alone(rt: HostRuntime) -> Result<(), Fail> {
    let mut bytes = Vec::new(rt.alloc());
    write_schema(&mut bytes, &SchemaSpec::new(rt.alloc()))?;
    let place = bytes.len();
    BatchBuilder::new(rt.alloc(), 5).finish_rows(&mut bytes)?;
    assert_eq!(rt; count_at(&bytes, place), Some(5));
    for place in [0, 1, bytes.len()] {
        assert_eq!(rt; count_at(&bytes, place), None);
    }
    Ok(())
}
