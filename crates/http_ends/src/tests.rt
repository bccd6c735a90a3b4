//! Asks over dialers in memory, and the responses that are written, byte by byte.
use super::{AskFault, HttpFault, Response, ask, write_response};
use job_values::{Seq, Text};
use outside::{BytesDialer, BytesLink, Dialed, MemoryDialer, MemoryLink};
use std::alloc::Global;
use std::collections::VecDeque;
use std::test::Fail;

const ANSWER: &[u8] = b"HTTP/1.1 200 OK\r\nContent-Length: 2\r\n\r\nok";

/// What was written to the link of the one dial, if it was hung up.
fn written(dials: Option<&[Dialed]>) -> Option<&[u8]> {
    match dials {
        Some([dial]) => match &dial.shown {
            Some(shown) => Some(shown.written.as_slice()),
            None => None,
        },
        _ => None,
    }
}

fn answered(alloc: Global, answer: &[u8]) -> Result<BytesDialer, Fail> {
    Ok(BytesDialer::new(alloc, Vec::from_slice(alloc, answer)?))
}

/// A dialer with one link that gives the answer, and on which this call fails.
fn failing(alloc: Global, call: u64) -> Result<MemoryDialer, Fail> {
    let mut script = VecDeque::new(alloc);
    let link = MemoryLink::new(alloc, Vec::from_slice(alloc, ANSWER)?);
    script.push_back(Some(link.failing(vec![in alloc; call]?)))?;
    Ok(MemoryDialer::new(alloc, script))
}

#[test]
fn beat_is_asked_without_a_token(rt: HostRuntime) -> Result<(), Fail> {
    let alloc = rt.alloc();
    let mut dialer = answered(alloc, ANSWER)?;
    let address = Text::copied(alloc, "http://e1:9999")?;
    let token = Text::copied(alloc, "")?;
    let response = ask(alloc, &mut dialer, &address, "beat", &token, b"\"\"")?;
    assert_eq!(rt; response.status, 200);
    assert_eq!(rt; response.body.as_slice(), b"ok".as_slice());
    let expected =
        b"POST /beat HTTP/1.1\r\nHost: e1:9999\r\nContent-Type: application/json;charset=UTF-8\r\nConnection: close\r\nContent-Length: 2\r\n\r\n\"\"";
    assert!(rt; written(dialer.dials()) == Some(expected.as_slice()));
    Ok(())
}

#[test]
fn base_and_token_are_written(rt: HostRuntime) -> Result<(), Fail> {
    let alloc = rt.alloc();
    let mut dialer = answered(alloc, ANSWER)?;
    let address = Text::copied(alloc, "http://a-1.b:80/xxl-job-admin/api")?;
    let token = Text::copied(alloc, "default_token")?;
    let _ = ask(alloc, &mut dialer, &address, "callback", &token, b"[]")?;
    let expected =
        b"POST /xxl-job-admin/api/callback HTTP/1.1\r\nHost: a-1.b:80\r\nContent-Type: application/json;charset=UTF-8\r\nXXL-JOB-ACCESS-TOKEN: default_token\r\nConnection: close\r\nContent-Length: 2\r\n\r\n[]";
    assert!(rt; written(dialer.dials()) == Some(expected.as_slice()));
    Ok(())
}

#[test]
fn bad_addresses_are_not_dialed(rt: HostRuntime) -> Result<(), Fail> {
    let alloc = rt.alloc();
    let mut dialer = answered(alloc, ANSWER)?;
    let token = Text::copied(alloc, "")?;
    let texts = [
        "ftp://e1:1",
        "http://e1",
        "http://:1",
        "http://e1:0",
        "http://e1:01",
        "http://e1:65536",
        "http://e_1:1",
        "http://e1:1?x",
        "http://e1:1/a b",
    ];
    for text in texts {
        let address = Text::copied(alloc, text)?;
        let result = ask(alloc, &mut dialer, &address, "beat", &token, b"");
        assert_eq!(rt; result.err(), Some(AskFault::BadAddress));
    }
    assert!(rt; matches!(dialer.dials(), Some([])));
    Ok(())
}

#[test]
fn response_without_a_length_goes_to_the_end(rt: HostRuntime) -> Result<(), Fail> {
    let alloc = rt.alloc();
    let mut dialer = answered(alloc, b"HTTP/1.0 500 Oh\r\n\r\nall of it")?;
    let address = Text::copied(alloc, "http://e1:65535/")?;
    let token = Text::copied(alloc, "")?;
    let response = ask(alloc, &mut dialer, &address, "beat", &token, b"")?;
    assert_eq!(rt; response.status, 500);
    assert_eq!(rt; response.body.as_slice(), b"all of it".as_slice());
    Ok(())
}

#[test]
fn failing_dials_and_calls_are_told(rt: HostRuntime) -> Result<(), Fail> {
    let alloc = rt.alloc();
    let address = Text::copied(alloc, "http://e1:1")?;
    let token = Text::copied(alloc, "")?;
    for call in 1..3 {
        let mut dialer = failing(alloc, call)?;
        let result = ask(alloc, &mut dialer, &address, "beat", &token, b"");
        assert_eq!(rt; result.err(), Some(AskFault::Http(HttpFault::LinkFault)));
        let refused = ask(alloc, &mut dialer, &address, "beat", &token, b"");
        assert_eq!(rt; refused.err(), Some(AskFault::DialFault));
        assert_eq!(rt; dialer.faults(), 2);
    }
    let mut empty = answered(alloc, b"")?;
    let result = ask(alloc, &mut empty, &address, "beat", &token, b"");
    assert_eq!(rt;
        result.err(),
        Some(AskFault::Http(HttpFault::Ended { taken: 0 }))
    );
    Ok(())
}

#[test]
fn responses_are_written(rt: HostRuntime) -> Result<(), Fail> {
    let alloc = rt.alloc();
    let mut link = BytesLink::new(alloc, Vec::new(alloc));
    let body = Seq::of(Vec::from_slice(alloc, b"{\"code\":200}")?);
    write_response(alloc, &mut link, &Response { status: 200, body })?;
    assert_eq!(rt;
        link.taken(),
        b"HTTP/1.1 200 OK\r\nContent-Type: application/json;charset=UTF-8\r\nContent-Length: 12\r\n\r\n{\"code\":200}".as_slice()
    );
    let mut link = MemoryLink::new(alloc, Vec::new(alloc)).in_pieces(1);
    let body = Seq::new(alloc);
    write_response(alloc, &mut link, &Response { status: 400, body })?;
    assert_eq!(rt;
        link.taken(),
        b"HTTP/1.1 400 Bad Request\r\nContent-Length: 0\r\nConnection: close\r\n\r\n".as_slice()
    );
    let mut link = MemoryLink::new(alloc, Vec::new(alloc)).in_pieces(7);
    let body = Seq::new(alloc);
    write_response(alloc, &mut link, &Response { status: 413, body })?;
    assert_eq!(rt;
        link.taken(),
        b"HTTP/1.1 413 Payload Too Large\r\nContent-Length: 0\r\nConnection: close\r\n\r\n".as_slice()
    );
    Ok(())
}
