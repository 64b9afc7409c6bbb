//! Lists that grow item by item.
use edif_parts::append;
use std::test::Fail;

/// The items that are put behind one another.
const ITEMS: [u32; 5] = [7, 7, 0, 9, 1];

#[test]
fn items_go_behind_the_others_with_room_and_without(rt: HostRuntime) -> Result<(), Fail> {
    for room in [0, 2, 5] {
        let mut list = Vec::with_capacity(rt.alloc(), room)?;
        for item in ITEMS {
            append(&mut list, item)?;
        }
        assert_eq!(rt; list.as_slice(), ITEMS.as_slice(), "with room for {room}");
    }
    Ok(())
}
