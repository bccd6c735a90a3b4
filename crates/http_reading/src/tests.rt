//! Requests and responses over links in memory, in any pieces, and the faults of bytes that are none.
use super::{HttpBuffer, HttpFault, Request, read_request, read_response};
use outside::MemoryLink;
use std::alloc::Global;
use std::process::Abort;
use std::test::Fail;

const BODY: &[u8] = b"{\"jobId\":1,\"logId\":7,\"executorHandler\":\"demo\"}";

const SIZED: &[u8] =
    b"POST /run HTTP/1.1\r\nXXL-JOB-ACCESS-TOKEN: default_token\r\nContent-Type: application/json;charset=UTF-8\r\nUser-Agent: Java/1.8.0_202\r\nHost: 127.0.0.1:9999\r\nConnection: keep-alive\r\nContent-Length: 46\r\n\r\n{\"jobId\":1,\"logId\":7,\"executorHandler\":\"demo\"}";

const CHUNKED: &[u8] =
    b"POST /run HTTP/1.1\r\nxxl-job-access-token: default_token\r\nXXL-JOB-ACCESS-TOKEN: other\r\nTransfer-Encoding: Chunked\r\n\r\n2e;x=1\r\n{\"jobId\":1,\"logId\":7,\"executorHandler\":\"demo\"}\r\n0\r\n\r\n";

const PIPELINED: &[u8] =
    b"\r\nGET /a HTTP/1.1\nconnection: CLOSE\n\nPOST /b HTTP/1.0\r\ncontent-length: 2\r\n\r\n\"\"PUT /c HTTP/1.1\r\ntransfer-encoding: chunked\r\n\r\n1\r\na\r\n2\r\nbc\r\n0\r\n\r\nGET /d HTTP/1.1\r\n\r\n";

/// A link of these bytes, at most `piece` of them in a read.
fn link_of(alloc: Global, bytes: &[u8], piece: usize) -> Result<MemoryLink, Fail> {
    let bytes = Vec::from_slice(alloc, bytes)?;
    Ok(MemoryLink::new(alloc, bytes).in_pieces(piece.max(1)))
}

/// What a fresh buffer answers over a link of these bytes, so many in a read.
fn fault_in(alloc: Global, bytes: &[u8], piece: usize) -> Result<Option<HttpFault>, Fail> {
    let mut link = link_of(alloc, bytes, piece)?;
    let mut buffer = HttpBuffer::new(alloc);
    Ok(read_request(alloc, &mut link, &mut buffer).err())
}

/// That a fresh buffer answers so over a link of these bytes, whole and one at a time.
fn answers(
    rt: &impl Abort,
    alloc: Global,
    bytes: &[u8],
    fault: Option<HttpFault>,
) -> Result<(), Fail> {
    assert_eq!(rt; fault_in(alloc, bytes, usize::MAX)?, fault);
    assert_eq!(rt; fault_in(alloc, bytes, 1)?, fault);
    Ok(())
}

/// That a request is the sample call.
fn is_sample(rt: &impl Abort, read: &Request) {
    assert_eq!(rt; read.method.as_slice(), b"POST".as_slice());
    assert_eq!(rt; read.path.as_slice(), b"/run".as_slice());
    match &read.token {
        Some(token) => assert_eq!(rt; token.as_slice(), b"default_token".as_slice()),
        None => assert!(rt; false),
    }
    assert!(rt; !read.close);
    assert_eq!(rt; read.body.as_slice(), BODY);
}

/// Reads the sample call, and then the end.
fn reads_sample(rt: &impl Abort, alloc: Global, bytes: &[u8], piece: usize) -> Result<(), Fail> {
    let mut link = link_of(alloc, bytes, piece)?;
    let mut buffer = HttpBuffer::new(alloc);
    let read = read_request(alloc, &mut link, &mut buffer)?.ok_or("no request")?;
    is_sample(rt, &read);
    let end = read_request(alloc, &mut link, &mut buffer)?;
    assert!(rt; end.is_none());
    Ok(())
}

#[test]
fn sample_call_is_read_however_it_is_cut(rt: HostRuntime) -> Result<(), Fail> {
    for piece in 1..260usize {
        reads_sample(&rt, rt.alloc(), SIZED, piece)?;
        reads_sample(&rt, rt.alloc(), CHUNKED, piece)?;
    }
    Ok(())
}

#[test]
fn requests_follow_one_another_and_no_byte_more_is_read(rt: HostRuntime) -> Result<(), Fail> {
    let alloc = rt.alloc();
    // A read behind the last byte would fail.
    let failing = vec![in alloc; PIPELINED.len() as u64 + 1]?;
    let mut link = link_of(alloc, PIPELINED, 1)?.failing(failing);
    let mut buffer = HttpBuffer::new(alloc);
    let a = read_request(alloc, &mut link, &mut buffer)?.ok_or("no first")?;
    assert_eq!(rt; a.path.as_slice(), b"/a".as_slice());
    assert!(rt; a.close && a.token.is_none() && a.body.is_empty());
    let b = read_request(alloc, &mut link, &mut buffer)?.ok_or("no second")?;
    assert_eq!(rt; b.body.as_slice(), b"\"\"".as_slice());
    assert!(rt; b.close);
    let c = read_request(alloc, &mut link, &mut buffer)?.ok_or("no third")?;
    assert_eq!(rt; c.method.as_slice(), b"PUT".as_slice());
    assert_eq!(rt; c.body.as_slice(), b"abc".as_slice());
    let d = read_request(alloc, &mut link, &mut buffer)?.ok_or("no fourth")?;
    assert!(rt; d.body.is_empty() && !d.close);
    let end = read_request(alloc, &mut link, &mut buffer).err();
    assert_eq!(rt; end, Some(HttpFault::LinkFault));
    let after = read_request(alloc, &mut link, &mut buffer).err();
    assert_eq!(rt; after, Some(HttpFault::Ended { taken: 0 }));
    Ok(())
}

/// A `BadBody` at this place.
fn bad(place: usize) -> Option<HttpFault> {
    Some(HttpFault::BadBody { place })
}

/// An `Ended` after so many bytes.
fn ended(taken: usize) -> Option<HttpFault> {
    Some(HttpFault::Ended { taken })
}

#[test]
fn faults_of_heads_come_with_their_places(rt: HostRuntime) -> Result<(), Fail> {
    let alloc = rt.alloc();
    answers(&rt, alloc, b"", None)?;
    answers(
        &rt,
        alloc,
        b"POST /beat HTTP/1.1\r\nContent-Length: 2\r\n\r\n\"",
        ended(43),
    )?;
    answers(
        &rt,
        alloc,
        b"POST / HTTP/1.1\r\nContent-Length: 1\r\nContent-Length: 1\r\n\r\na",
        bad(57),
    )?;
    answers(
        &rt,
        alloc,
        b"POST / HTTP/1.1\r\nContent-Length: 1\r\nTransfer-Encoding: chunked\r\n\r\n",
        bad(66),
    )?;
    answers(
        &rt,
        alloc,
        b"POST / HTTP/1.1\r\nContent-Length: +1\r\n\r\na",
        bad(39),
    )?;
    answers(
        &rt,
        alloc,
        b"POST / HTTP/1.1\r\na: \0\r\n\r\n",
        Some(HttpFault::BadHead),
    )?;
    answers(
        &rt,
        alloc,
        b"POST / HTTP/1.1\r\nContent-Length: 1048577\r\n\r\n",
        Some(HttpFault::TooLarge),
    )?;
    Ok(())
}

#[test]
fn faults_of_chunks_come_with_their_places(rt: HostRuntime) -> Result<(), Fail> {
    let alloc = rt.alloc();
    answers(
        &rt,
        alloc,
        b"POST / HTTP/1.1\r\nTransfer-Encoding: chunked\r\n\r\nz\r\n",
        bad(47),
    )?;
    answers(
        &rt,
        alloc,
        b"POST / HTTP/1.1\r\nTransfer-Encoding: chunked\r\n\r\n1\r\nab",
        bad(51),
    )?;
    answers(
        &rt,
        alloc,
        b"POST / HTTP/1.1\r\nTransfer-Encoding: chunked\r\n\r\n1\r\na\rb",
        bad(52),
    )?;
    answers(
        &rt,
        alloc,
        b"POST / HTTP/1.1\r\nTransfer-Encoding: chunked\r\n\r\n0\r\na: b\r\n\r\n",
        bad(50),
    )?;
    answers(
        &rt,
        alloc,
        b"POST / HTTP/1.1\r\nTransfer-Encoding: chunked\r\n\r\n2\r\na",
        ended(51),
    )?;
    answers(
        &rt,
        alloc,
        b"POST / HTTP/1.1\r\nTransfer-Encoding: chunked\r\n\r\n100001\r\n",
        Some(HttpFault::TooLarge),
    )?;
    Ok(())
}

/// The front, so many bytes `x`, and the back.
fn padded(alloc: Global, front: &[u8], count: usize, back: &[u8]) -> Result<Vec<u8>, Fail> {
    let mut bytes = Vec::from_slice(alloc, front)?;
    let pad = vec![in alloc; b'x'; count]?;
    bytes.extend_from_slice(pad.as_slice())?;
    bytes.extend_from_slice(back)?;
    Ok(bytes)
}

#[test]
fn limits_on_bytes_are_taken_and_no_more(rt: HostRuntime) -> Result<(), Fail> {
    let alloc = rt.alloc();
    let large = padded(
        alloc,
        b"POST / HTTP/1.1\r\nContent-Length: 1048576\r\n\r\n",
        1_048_576,
        b"",
    )?;
    let mut link = link_of(alloc, large.as_slice(), usize::MAX)?;
    let read = read_request(alloc, &mut link, &mut HttpBuffer::new(alloc))?.ok_or("no request")?;
    assert_eq!(rt; read.body.len(), 1_048_576);
    // A body past the limit is refused before a second read, which would fail.
    let refused = b"POST / HTTP/1.1\r\nContent-Length: 1048577\r\n\r\n";
    let mut link = link_of(alloc, refused, usize::MAX)?.failing(vec![in alloc; 2u64]?);
    let fault = read_request(alloc, &mut link, &mut HttpBuffer::new(alloc)).err();
    assert_eq!(rt; fault, Some(HttpFault::TooLarge));
    let longest = padded(alloc, b"GET / HTTP/1.1\r\na: ", 16_384 - 23, b"\r\n\r\n")?;
    answers(&rt, alloc, longest.as_slice(), None)?;
    let longer = padded(alloc, b"GET / HTTP/1.1\r\na: ", 16_384 - 22, b"\r\n\r\n")?;
    answers(&rt, alloc, longer.as_slice(), Some(HttpFault::TooLarge))?;
    let line = padded(
        alloc,
        b"GET / HTTP/1.1\r\nTransfer-Encoding: chunked\r\n\r\n1;",
        16_384,
        b"",
    )?;
    answers(&rt, alloc, line.as_slice(), Some(HttpFault::TooLarge))?;
    Ok(())
}

#[test]
fn sixty_four_fields_are_taken_and_no_more(rt: HostRuntime) -> Result<(), Fail> {
    let alloc = rt.alloc();
    let mut head = Vec::from_slice(alloc, b"GET / HTTP/1.1\r\n")?;
    for _i in 0..64u8 {
        head.extend_from_slice(b"a: b\r\n")?;
    }
    let taken = padded(alloc, head.as_slice(), 0, b"\r\n")?;
    answers(&rt, alloc, taken.as_slice(), None)?;
    let refused = padded(alloc, head.as_slice(), 0, b"a: b\r\n\r\n")?;
    answers(&rt, alloc, refused.as_slice(), Some(HttpFault::TooLarge))?;
    Ok(())
}

#[test]
fn each_failing_read_is_a_link_fault(rt: HostRuntime) -> Result<(), Fail> {
    let alloc = rt.alloc();
    for call in 1..=6u64 {
        let mut link = link_of(alloc, CHUNKED, 30)?.failing(vec![in alloc; call]?);
        let mut buffer = HttpBuffer::new(alloc);
        let fault = read_request(alloc, &mut link, &mut buffer).err();
        assert_eq!(rt; fault, Some(HttpFault::LinkFault));
        let after = read_request(alloc, &mut link, &mut buffer).err();
        assert_eq!(rt; after, Some(HttpFault::Ended { taken: 0 }));
    }
    Ok(())
}

#[test]
fn responses_are_read_to_their_end(rt: HostRuntime) -> Result<(), Fail> {
    let alloc = rt.alloc();
    let mut to_end = link_of(alloc, b"HTTP/1.1 200 OK\r\n\r\n{\"code\":200}", 3)?;
    let read = read_response(alloc, &mut to_end)?;
    assert_eq!(rt; read.status, 200);
    assert_eq!(rt; read.body.as_slice(), b"{\"code\":200}".as_slice());
    let mut sized = link_of(
        alloc,
        b"HTTP/1.0 413 Too Large\r\nContent-Length: 3\r\n\r\nabcrest",
        3,
    )?;
    let read = read_response(alloc, &mut sized)?;
    assert_eq!(rt; read.status, 413);
    assert_eq!(rt; read.body.as_slice(), b"abc".as_slice());
    let mut none = link_of(alloc, b"", 1)?;
    assert_eq!(rt; read_response(alloc, &mut none).err(), ended(0));
    let mut cut = link_of(alloc, b"HTTP/1.1 200 OK\r\nContent-Length: 3\r\n\r\nab", 7)?;
    assert_eq!(rt; read_response(alloc, &mut cut).err(), ended(40));
    let past = padded(alloc, b"HTTP/1.1 200 OK\r\n\r\n", 1_048_577, b"")?;
    let mut past = link_of(alloc, past.as_slice(), usize::MAX)?;
    assert_eq!(rt;
        read_response(alloc, &mut past).err(),
        Some(HttpFault::TooLarge)
    );
    let mut bad = link_of(alloc, b"HTTP/2 200 OK\r\n\r\n", 7)?;
    assert_eq!(rt;
        read_response(alloc, &mut bad).err(),
        Some(HttpFault::BadHead)
    );
    Ok(())
}
