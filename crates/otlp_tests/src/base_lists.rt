use lists::Items;
use std::test::Fail;

#[test]
fn items_are_changed_in_place(rt: HostRuntime) -> Result<(), Fail> {
    let mut items = Items::new(rt.alloc());
    items.push(4u64)?;
    if let Some(item) = items.get_mut(0) {
        *item = 5;
    }
    assert!(rt; items.get_mut(1).is_none());
    assert_eq!(rt; items.as_slice(), [5].as_slice());
    Ok(())
}
