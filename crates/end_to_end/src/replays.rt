//! Replays over memory, with each read and write failing in turn.
use outside::{BytesSink, BytesSource, MemorySink, MemorySource};
use replay_program::replay_main;
use std::alloc::Global;
use std::test::Fail;

const SCRIPT: &[u8] = b"start 0\nstart 0\n";

const WHOLE: &[u8] =
    b"ok\nno NodeRunning 0\nend entries 2 jobs 0 logs 0 settled 0 failed 0 waiting 0 queued 0 held 0\n";

/// The word of the command that plays a script.
fn run(alloc: Global) -> Result<Vec<String>, Fail> {
    let mut words = Vec::new(alloc);
    words.push(String::from_str(alloc, "run")?)?;
    Ok(words)
}

/// Whether a replay whose source fails at this call, if it comes to it, ends with status 3 just then and
/// has written a front of the whole.
fn is_told_at_read(alloc: Global, run: &[String], call: u64) -> Result<bool, Fail> {
    let failing = vec![in alloc; call]?;
    let mut source = MemorySource::new(alloc, SCRIPT)
        .in_pieces(5)
        .failing(failing);
    let mut sink = BytesSink::new(alloc);
    let status = replay_main(alloc, run, &mut source, &mut sink);
    let wanted = if source.faults() == 0 { 0 } else { 3 };
    Ok(status == wanted && WHOLE.starts_with(sink.taken()))
}

#[test]
fn each_read_may_fail(rt: HostRuntime) -> Result<(), Fail> {
    let run = run(rt.alloc())?;
    for call in 1..10 {
        assert!(rt; is_told_at_read(rt.alloc(), run.as_slice(), call)?);
    }
    Ok(())
}

/// The same of its sink, with status 4.
fn is_told_at_write(alloc: Global, run: &[String], call: u64) -> Result<bool, Fail> {
    let failing = vec![in alloc; call]?;
    let mut source = BytesSource::new(SCRIPT);
    let mut sink = MemorySink::new(alloc).in_pieces(7).failing(failing);
    let status = replay_main(alloc, run, &mut source, &mut sink);
    let wanted = if sink.faults() == 0 { 0 } else { 4 };
    Ok(status == wanted && WHOLE.starts_with(sink.taken()))
}

#[test]
fn each_write_may_fail(rt: HostRuntime) -> Result<(), Fail> {
    let run = run(rt.alloc())?;
    for call in 1..30 {
        assert!(rt; is_told_at_write(rt.alloc(), run.as_slice(), call)?);
    }
    Ok(())
}
