//! Lists, boxes and texts.

use ob_base::{Boxed, Items, Text};
use std::test::Fail;

#[test]
fn items_keep_their_order(rt: HostRuntime) -> Result<(), Fail> {
    let mut items = Items::new(rt.alloc());
    items.push(3u32)?;
    items.push(1u32)?;
    assert_eq!(rt; items.len(), 2);
    assert_eq!(rt; items.as_slice(), [3u32, 1].as_slice());
    Ok(())
}

#[test]
fn a_box_gives_its_value_back(rt: HostRuntime) -> Result<(), Fail> {
    let boxed = Boxed::new(rt.alloc(), 7u32)?;
    assert_eq!(rt; *boxed.get(), 7);
    assert_eq!(rt; boxed.into_inner(), 7);
    Ok(())
}

#[test]
fn texts_are_compared_by_their_characters(rt: HostRuntime) -> Result<(), Fail> {
    let text = Text::from_slice(rt.alloc(), b"ab")?;
    let copy = text.copy(rt.alloc())?;
    let other = Text::from_vec(Vec::from_slice(rt.alloc(), b"ac")?);
    assert!(rt; text.same(&copy));
    assert!(rt; !text.same(&other));
    assert_eq!(rt; copy.as_slice(), b"ab".as_slice());
    Ok(())
}
