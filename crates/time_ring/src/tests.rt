use super::{Ticket, TimeRing};
use job_values::{JobId, Moment};
use std::test::Fail;

fn put(ring: &mut TimeRing, job: u32, due: u64) -> Result<(), Fail> {
    let ticket = Ticket {
        job: JobId::new(job).ok_or("a job")?,
        edition: 1,
        due: Moment::new(due).ok_or("a moment")?,
    };
    ring.reserve(ticket.due, 1)?;
    ring.put(ticket);
    Ok(())
}

#[test]
fn a_turn_takes_its_slot_and_the_slot_before(rt: HostRuntime) -> Result<(), Fail> {
    let mut ring = TimeRing::new(rt.alloc())?;
    put(&mut ring, 2, 59_000)?;
    put(&mut ring, 1, 119_500)?;
    put(&mut ring, 3, 60_000)?;
    put(&mut ring, 4, 61_000)?;
    assert_eq!(rt; ring.count(), 4);
    let (present, past) = ring.slots(60);
    assert_eq!(rt; present.len(), 1);
    assert_eq!(rt; past.len(), 2);
    let taken = ring.take(60);
    assert_eq!(rt; taken.present.len(), 1);
    assert_eq!(rt; taken.past.len(), 2);
    assert_eq!(rt; taken.present.as_slice()[0].job.get(), 3);
    assert_eq!(rt; taken.past.as_slice()[0].job.get(), 2);
    assert_eq!(rt; taken.past.as_slice()[1].job.get(), 1);
    assert_eq!(rt; ring.clear(), 1);
    assert_eq!(rt; ring.count(), 0);
    Ok(())
}
