//! The adapters and the dialers in memory, each on a short text.
use crate::{FileSpool, StreamSink, StreamSource, TcpDialer, TcpLink, TcpPort};
use job_values::Text;
use outside::{
    BytesDialer, BytesLink, BytesSink, BytesSource, Dialer, Failed, Link, MemoryDialer, MemoryLink,
    Sink, Source, Spool, SpoolError, send,
};
use program_ports::{Accept, Listener};
use std::collections::VecDeque;
use std::net::TcpListener;
use std::test::Fail;

#[test]
fn plain_streams_give_and_take_all(rt: HostRuntime) -> Result<(), Fail> {
    let mut into = [0u8; 2];
    let mut source = BytesSource::new(b"abc");
    assert_eq!(rt; source.read(&mut into), Ok(2));
    assert_eq!(rt; into, *b"ab");
    let mut stream = StreamSource::new(b"abc".as_slice());
    assert_eq!(rt; stream.read(&mut into), Ok(2));
    assert_eq!(rt; stream.read(&mut into), Ok(1));
    assert_eq!(rt; into, *b"cb");
    let mut sink = BytesSink::new(rt.alloc());
    assert_eq!(rt; sink.write(b"abc"), Ok(3));
    assert_eq!(rt; sink.taken(), b"abc".as_slice());
    let mut writer = StreamSink::new(Vec::new(rt.alloc()));
    assert_eq!(rt; writer.write(b"abc"), Ok(3));
    Ok(())
}

#[test]
fn memory_dialer_gives_and_refuses_in_order(rt: HostRuntime) -> Result<(), Fail> {
    let mut script = VecDeque::new(rt.alloc());
    script.push_back(None)?;
    script.push_back(Some(MemoryLink::new(rt.alloc(), Vec::new(rt.alloc()))))?;
    let mut dialer = MemoryDialer::new(rt.alloc(), script).another()?;
    assert!(rt; dialer.dial("e1", 1).is_err());
    assert!(rt; dialer.dial("e2", 65535).is_ok());
    assert!(rt; dialer.dial("e3", 2).is_err());
    assert_eq!(rt; dialer.faults(), 2);
    if let Some([first, second, third]) = dialer.dials() {
        assert!(rt; first.failed && !second.failed && third.failed);
        assert_eq!(rt; second.host.as_str(), "e2");
        assert_eq!(rt; second.port, 65535);
        return Ok(());
    }
    Err(Fail::from("no three dials"))
}

#[test]
fn dial_shows_what_its_link_told(rt: HostRuntime) -> Result<(), Fail> {
    let answer = Vec::from_slice(rt.alloc(), b"ok")?;
    let mut dialer = BytesDialer::new(rt.alloc(), answer).another()?;
    let mut link: BytesLink = dialer.dial("e1", 1)?;
    let mut into = [0u8; 4];
    assert_eq!(rt; send(&mut link, b"x"), Ok(()));
    assert_eq!(rt; link.read(&mut into), Ok(2));
    assert_eq!(rt; link.read(&mut into), Ok(0));
    dialer.hang_up(link);
    if let Some([dial]) = dialer.dials() {
        if let Some(shown) = &dial.shown {
            assert_eq!(rt; shown.written.as_slice(), b"x".as_slice());
            assert_eq!(rt; shown.read.as_slice(), b"ok".as_slice());
            assert!(rt; shown.met && !shown.faulted);
            return Ok(());
        }
    }
    Err(Fail::from("no dial that shows a link"))
}

#[test]
fn tcp_link_carries_bytes(rt: HostRuntime) -> Result<(), Fail> {
    let listener = TcpListener::bind(&rt, "127.0.0.1:0")?;
    let port = listener.local_addr()?.port();
    let mut dialer = TcpDialer::new(rt.alloc(), rt).another()?;
    let mut link = dialer.dial("127.0.0.1", port)?;
    let (stream, _) = listener.accept()?;
    let mut peer = TcpLink::of(stream)?;
    let mut into = [0u8; 4];
    assert_eq!(rt; send(&mut link, b"abc"), Ok(()));
    assert_eq!(rt; peer.read(&mut into), Ok(3));
    assert_eq!(rt; into, *b"abc\0");
    dialer.hang_up(link);
    assert_eq!(rt; peer.read(&mut into), Ok(0));
    Ok(())
}

/// A save replaces all bytes, and what is opened again has them.
#[test]
fn a_save_replaces_all_bytes(rt: HostRuntime) -> Result<(), Fail> {
    let file = Text::copied(rt.alloc(), "results.txt")?;
    let mut spool = FileSpool::new(rt.alloc(), rt);
    assert_eq!(rt; spool.attach(&file), Ok(()));
    assert_eq!(rt; spool.save(b"first and long"), Ok(()));
    assert_eq!(rt; spool.save(b"second"), Ok(()));
    let mut again = FileSpool::new(rt.alloc(), rt);
    assert_eq!(rt; again.attach(&file), Ok(()));
    let bytes = again.load().map_err(|_| "no bytes")?;
    assert_eq!(rt; bytes.as_slice(), b"second".as_slice());
    Ok(())
}

/// Without a file each call fails; a file that is not there has no bytes, and one in no folder keeps none.
#[test]
fn a_missing_file_has_no_bytes(rt: HostRuntime) -> Result<(), Fail> {
    let mut spool = FileSpool::new(rt.alloc(), rt);
    assert_eq!(rt; spool.save(b"a"), Err(Failed));
    assert_eq!(rt; spool.load().err(), Some(SpoolError::Failed));
    let file = Text::copied(rt.alloc(), "no-folder/results.txt")?;
    assert_eq!(rt; spool.attach(&file), Ok(()));
    let bytes = spool.load().map_err(|_| "no bytes")?;
    assert!(rt; bytes.is_empty());
    assert_eq!(rt; spool.save(b"a"), Err(Failed));
    Ok(())
}

/// A port gives the link that another dialed, is idle behind it, and fails before it has a number.
#[test]
fn tcp_port_gives_links(rt: HostRuntime) -> Result<(), Fail> {
    let port = TcpListener::bind(&rt, "127.0.0.1:0")?.local_addr()?.port();
    let mut listener = TcpPort::new(rt);
    assert!(rt; listener.accept().is_err());
    assert_eq!(rt; listener.attach(port), Ok(()));
    assert!(rt; matches!(listener.accept()?, Accept::Idle));
    let mut link = TcpDialer::new(rt.alloc(), rt).dial("127.0.0.1", port)?;
    assert_eq!(rt; send(&mut link, b"a"), Ok(()));
    let Accept::Came(mut peer) = listener.accept()? else {
        return Err(Fail::from("no link"));
    };
    let mut into = [0u8; 4];
    assert_eq!(rt; peer.read(&mut into), Ok(1));
    assert!(rt; matches!(listener.accept()?, Accept::Idle));
    Ok(())
}
