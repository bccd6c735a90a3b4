//! With memory in plenty each call that takes it answers. What is copied is in the contracts.

use super::*;
use std::test::Fail;

#[test]
fn a_copied_text_says_the_same(rt: HostRuntime) -> Result<(), Fail> {
    let alloc = rt.alloc();
    let text = Text::copied(alloc, "demo")?;
    let copy = text.copy(alloc)?;
    assert_eq!(rt; copy.as_str(), "demo");
    Ok(())
}

#[test]
fn a_copied_name_says_the_same(rt: HostRuntime) -> Result<(), Fail> {
    let alloc = rt.alloc();
    let app = AppName::new(Text::copied(alloc, "demo")?).ok_or("an app")?;
    let copy = app.copy(alloc)?;
    assert_eq!(rt; copy.as_str(), "demo");
    Ok(())
}

#[test]
fn an_empty_text_is_no_name(rt: HostRuntime) -> Result<(), Fail> {
    let empty = Text::copied(rt.alloc(), "")?;
    assert!(rt; AppName::new(empty).is_none());
    Ok(())
}

#[test]
fn a_copied_list_says_the_same(rt: HostRuntime) -> Result<(), Fail> {
    let alloc = rt.alloc();
    let mut list = Seq::new(alloc);
    list.push(7u8)?;
    let copy = list.copy(alloc)?;
    assert_eq!(rt; copy.as_slice(), [7u8].as_slice());
    Ok(())
}
