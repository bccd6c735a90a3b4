//! The bytes of answers and of requests, as HTTP/1.1 and the calls of XXL-JOB have them.

use executor_node::ExecutorEnd;
use http_reading::HttpFault;
use job_values::NoMemory;
use std::alloc::Global;

/// An answer with this body.
pub fn answer_text(alloc: Global, body: &[u8]) -> Result<Vec<u8>, NoMemory> {
    let length = body.len();
    let head = format!(in alloc;
        "HTTP/1.1 200 OK\r\nContent-Type: application/json;charset=UTF-8\r\nContent-Length: {length}\r\n\r\n"
    )?;
    let mut text = head.into_bytes();
    text.extend_from_slice(body)?;
    Ok(text)
}

/// What is written where a connection ends so.
pub fn refusal_text(end: ExecutorEnd) -> &'static [u8] {
    match end {
        ExecutorEnd::Http(HttpFault::BadHead | HttpFault::BadBody { .. }) => {
            b"HTTP/1.1 400 Bad Request\r\nContent-Length: 0\r\nConnection: close\r\n\r\n"
        }
        ExecutorEnd::Http(HttpFault::TooLarge) => {
            b"HTTP/1.1 413 Payload Too Large\r\nContent-Length: 0\r\nConnection: close\r\n\r\n"
        }
        _ => b"",
    }
}

/// A request of a call, as a peer of the executor sends it.
pub fn call_text(alloc: Global, path: &str, token: &str, body: &str) -> Result<Vec<u8>, NoMemory> {
    let length = body.len();
    let text = format!(in alloc;
        "POST {path} HTTP/1.1\r\nXXL-JOB-ACCESS-TOKEN: {token}\r\nContent-Length: {length}\r\n\r\n{body}"
    )?;
    Ok(text.into_bytes())
}

/// The body of an answer, or all of the bytes where they are none.
pub fn body_of(alloc: Global, written: &[u8]) -> Result<String, NoMemory> {
    let text = String::from_utf8_lossy(alloc, written)?;
    if let Some((_head, body)) = text.split_once("\r\n\r\n") {
        if answer_text(alloc, body.as_bytes())?.as_slice() == written {
            return Ok(String::from_str(alloc, body)?);
        }
    }
    Ok(text)
}

/// A request that an executor asks of an admin.
pub fn ask_text(
    alloc: Global,
    host: &str,
    path: &str,
    token: &str,
    body: &str,
) -> Result<Vec<u8>, NoMemory> {
    let length = body.len();
    let text = if token.is_empty() {
        format!(in alloc;
            "POST {path} HTTP/1.1\r\nHost: {host}\r\nContent-Type: application/json;charset=UTF-8\r\nConnection: close\r\nContent-Length: {length}\r\n\r\n{body}"
        )?
    } else {
        format!(in alloc;
            "POST {path} HTTP/1.1\r\nHost: {host}\r\nContent-Type: application/json;charset=UTF-8\r\nXXL-JOB-ACCESS-TOKEN: {token}\r\nConnection: close\r\nContent-Length: {length}\r\n\r\n{body}"
        )?
    };
    Ok(text.into_bytes())
}

/// The host, the path and the body of a request that was asked, or all of the bytes where they are none.
pub fn asked_of(
    alloc: Global,
    host: &str,
    token: &str,
    written: &[u8],
) -> Result<String, NoMemory> {
    let text = String::from_utf8_lossy(alloc, written)?;
    let words = text
        .strip_prefix("POST ")
        .and_then(|rest| rest.split_once(' '));
    if let (Some((path, _)), Some((_, body))) = (words, text.split_once("\r\n\r\n")) {
        if ask_text(alloc, host, path, token, body)?.as_slice() == written {
            return Ok(format!(in alloc; "{host} {path} {body}")?);
        }
    }
    Ok(text)
}
