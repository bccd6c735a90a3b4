//! Codes as they are read and written.
use super::*;
use std::test::Fail;

#[test]
fn a_code_is_read_as_it_is_written(rt: HostRuntime) -> Result<(), Fail> {
    let mut reader = Reader { rest: b"-7\n" };
    assert_eq!(rt; reader.code(End::Line), Ok(-7));
    let mut out = Vec::new(rt.alloc());
    write_signed(&mut out, -7).map_err(|_| "memory")?;
    assert_eq!(rt; out.as_slice(), b"-7".as_slice());
    Ok(())
}
