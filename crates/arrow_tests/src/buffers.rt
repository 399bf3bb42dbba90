use arrow_buffers::*;
use std::test::Fail;

/// Examples of the format's own text: `["joe", null, null, "mark"]` ("Variable-size binary layout")
/// and `[[12, -7, 25], null, [0, -127, 127, 50], []]` of 8 bits each ("Variable-size list layout").
const NAME_OFFSETS: [u8; 20] = [0, 0, 0, 0, 3, 0, 0, 0, 3, 0, 0, 0, 3, 0, 0, 0, 7, 0, 0, 0];

const LIST_OFFSETS: [u8; 20] = [0, 0, 0, 0, 3, 0, 0, 0, 3, 0, 0, 0, 7, 0, 0, 0, 7, 0, 0, 0];

const LIST_VALUES: [u8; 7] = [12, 249, 25, 0, 129, 127, 50];

#[test]
fn views_what_was_checked(rt: HostRuntime) -> Result<(), Fail> {
    Vars::new(&NAME_OFFSETS, b"joemark", 4)?;
    let names = Vars::checked(&NAME_OFFSETS, b"joemark", 4);
    assert_eq!(rt; names.get(3), Some(b"mark".as_slice()));

    Lists::new(&LIST_OFFSETS, &LIST_VALUES, 1, 4)?;
    let lists = Lists::checked(&LIST_OFFSETS, &LIST_VALUES, 1, 4);
    assert_eq!(rt; lists.get(1), Some([].as_slice()));
    Ok(())
}

#[test]
fn makes_room_for_rows(rt: HostRuntime) -> Result<(), Fail> {
    let mut ints = ColumnBuilder::for_rows(rt.alloc(), Width::Fixed(4), 20)?;
    ints.push_nulls(20)?;
    let ints = ints.finish()?;
    assert_eq!(rt; ints.values.capacity(), 80);

    let mut names = ColumnBuilder::for_rows(rt.alloc(), Width::Var, 2)?;
    names.push_nulls(2)?;
    let names = names.finish()?;
    assert_eq!(rt; names.offsets.capacity(), 12);

    let too_many = ColumnBuilder::for_rows(rt.alloc(), Width::Fixed(4), usize::MAX);
    assert!(rt; too_many.is_err());
    Ok(())
}
