//! The text of one item, written and read.

use super::{read_spool, write_spool};
use job_values::{CallbackItem, LogId, LogMoment, ResultText, Seq, Text};
use std::alloc::Global;
use std::test::Fail;

const LINE: &str = "{\"handleCode\":200,\"handleMsg\":\"\",\"logDateTim\":100000,\"logId\":1}";

fn item(alloc: Global) -> Result<CallbackItem, Fail> {
    Ok(CallbackItem {
        log: LogId::new(1).ok_or("a log id")?,
        log_moment: LogMoment::new(100_000).ok_or("a log moment")?,
        code: 200,
        msg: ResultText::new(Text::copied(alloc, "")?).ok_or("a text")?,
    })
}

#[test]
fn one_item(rt: HostRuntime) -> Result<(), Fail> {
    let alloc = rt.alloc();
    let mut items = Seq::new(alloc);
    items.push(item(alloc)?)?;
    let written = write_spool(alloc, &items)?;
    let text = format!(in alloc; "{LINE}\n")?;
    assert_eq!(rt; written.as_slice(), text.as_bytes());
    let read = read_spool(alloc, text.as_bytes())?;
    assert_eq!(rt; read.len(), 1);
    let again = write_spool(alloc, &read)?;
    assert_eq!(rt; again.as_slice(), text.as_bytes());
    Ok(())
}
