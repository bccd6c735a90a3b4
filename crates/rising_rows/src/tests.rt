use super::{has_row, place_from, place_of, put, row_of, take, take_all};
use job_values::LogId;
use std::test::Fail;

#[test]
fn a_row_is_put_found_and_taken(rt: HostRuntime) -> Result<(), Fail> {
    let four = LogId::new(4).ok_or("an id")?;
    prove!(four.get() > 0);
    let mut rows = Vec::with_capacity(rt.alloc(), 1)?;
    put(&mut rows, four);
    assert_eq!(rt; place_of(rows.as_slice(), 4), Some(0));
    assert_eq!(rt; place_from(rows.as_slice(), 5), 1);
    assert!(rt; has_row(rows.as_slice(), 4));
    assert!(rt; row_of(rows.as_slice(), 5).is_none());
    let mut others = Vec::with_capacity(rt.alloc(), 1)?;
    put(&mut others, four);
    take_all(&mut others, rows.as_slice());
    assert_eq!(rt; others.len(), 0);
    take(&mut rows, 4);
    assert_eq!(rt; rows.len(), 0);
    Ok(())
}
