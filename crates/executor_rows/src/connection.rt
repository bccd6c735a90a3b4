//! A row on one connection. Behind its name each line has a mark:
//!
//! | Mark | The rest of the line is |
//! |---|---|
//! | `? ` | the token of the executor; without such a line it has none |
//! | `< ` | what the link gives, with CR LF behind it; so many times where a number stands at the mark |
//! | `<< ` | the same without CR LF |
//! | `<0` | nothing: the link gives a byte 0 |
//! | `> ` | the body of the answer to the request above, whose event is an entry |
//! | `- ` | the same of a request that makes no entry |
//! | `! ` | how the connection ends |
//!
//! The row is played in pieces of each size up to 64 and of some above, and on a link that ends behind each
//! byte of its requests; a row of one request also on a link that gives and takes single bytes, with each of
//! its calls failing in turn, and in pieces of these sizes on a link whose read behind its last byte fails.

use crate::handlers::names;
use crate::outcome::Outcome;
use crate::setting::{beginning, close, number, settings};
use crate::wire::{answer_text, refusal_text};
use executor_node::{ExecutorEnd, serve_executor, share_executor};
use http_reading::HttpFault;
use job_values::{NoMemory, Seq};
use outside::{MemoryClock, MemoryLink};
use std::alloc::Global;
use std::mem;
use std::sync::Wait;

/// Up to so many bytes a connection is played in all ways, above them whole alone.
const MOST_VARIED: usize = 2_000;

/// A request, its answer, and whether its event is an entry.
#[derive(Drop)]
struct Exchange {
    request: Vec<u8>,
    answer: Vec<u8>,
    is_entry: bool,
}

#[derive(Drop)]
struct Connection {
    token: String,
    exchanges: Vec<Exchange>,
    /// What the link gives behind the last of them.
    behind: Vec<u8>,
    end: ExecutorEnd,
}

/// How a connection ends that ends in these words.
fn end_of(words: &str) -> Option<ExecutorEnd> {
    let fault = match words {
        "closed" => return Some(ExecutorEnd::Closed),
        "bad head" => HttpFault::BadHead,
        "too large" => HttpFault::TooLarge,
        _ => {
            if let Some(place) = words.strip_prefix("bad body ") {
                HttpFault::BadBody {
                    place: number(place) as usize,
                }
            } else {
                HttpFault::Ended {
                    taken: number(words.strip_prefix("ended ")?) as usize,
                }
            }
        }
    };
    Some(ExecutorEnd::Http(fault))
}

/// Whether a row is played in pieces of this size.
fn is_tried(size: usize) -> bool {
    size <= 64 || size % 64 == 0
}

/// How often the rest of a line is given, and what.
fn times(rest: &str) -> (u64, &str) {
    match rest.split_once(' ') {
        None => (1, rest),
        Some(("", text)) => (1, text),
        Some((count, text)) => (number(count), text),
    }
}

impl Connection {
    /// A row without lines.
    fn new(alloc: Global) -> Connection {
        Connection {
            token: String::new(alloc),
            exchanges: Vec::new(alloc),
            behind: Vec::new(alloc),
            end: ExecutorEnd::Closed,
        }
    }

    /// The connection of a row.
    fn of_row(alloc: Global, row: &str) -> Result<Option<Connection>, NoMemory> {
        let mut connection = Connection::new(alloc);
        for line in row.lines().skip(1) {
            if !connection.take(alloc, line)? {
                return Ok(None);
            }
        }
        Ok(Some(connection))
    }

    /// Takes one line; whether it has a mark.
    fn take(&mut self, alloc: Global, line: &str) -> Result<bool, NoMemory> {
        if line == "<0" {
            self.behind.push(0)?;
        } else if let Some(rest) = line.strip_prefix("<<") {
            self.give(rest, "")?;
        } else if let Some(rest) = line.strip_prefix("<") {
            self.give(rest, "\r\n")?;
        } else if let Some(body) = line.strip_prefix("> ") {
            self.answer(alloc, body, true)?;
        } else if let Some(body) = line.strip_prefix("- ") {
            self.answer(alloc, body, false)?;
        } else if let Some(token) = line.strip_prefix("? ") {
            self.token.push_str(token)?;
        } else if let Some(end) = line.strip_prefix("! ").and_then(end_of) {
            self.end = end;
        } else {
            return Ok(false);
        }
        Ok(true)
    }

    /// Lets the link give what the rest of a line says.
    fn give(&mut self, rest: &str, end: &str) -> Result<(), NoMemory> {
        let (count, text) = times(rest);
        for _ in 0..count {
            self.behind.extend_from_slice(text.as_bytes())?;
            self.behind.extend_from_slice(end.as_bytes())?;
        }
        Ok(())
    }

    /// What was given since the last answer is a request, which is answered so.
    fn answer(&mut self, alloc: Global, body: &str, is_entry: bool) -> Result<(), NoMemory> {
        let request = mem::replace(&mut self.behind, Vec::new(alloc));
        let answer = answer_text(alloc, body.as_bytes())?;
        self.exchanges.push(Exchange {
            request,
            answer,
            is_entry,
        })?;
        Ok(())
    }

    /// The bytes of the requests.
    fn requests(&self, alloc: Global) -> Result<Vec<u8>, NoMemory> {
        let mut bytes = Vec::new(alloc);
        for exchange in self.exchanges.iter() {
            bytes.extend_from_slice(exchange.request.as_slice())?;
        }
        Ok(bytes)
    }

    /// What comes of all that the link gives.
    fn whole(&self, alloc: Global) -> Result<Outcome, NoMemory> {
        let mut outcome = Outcome::new(alloc, self.end);
        for exchange in self.exchanges.iter() {
            outcome.count(exchange.is_entry);
            outcome.write(exchange.answer.as_slice())?;
        }
        outcome.write(refusal_text(self.end))?;
        Ok(outcome)
    }

    /// What comes of so many bytes of its requests.
    fn ended(&self, alloc: Global, given: usize) -> Result<Outcome, NoMemory> {
        let mut outcome = Outcome::new(alloc, ExecutorEnd::Closed);
        let mut taken = given;
        for exchange in self.exchanges.iter() {
            if taken < exchange.request.len() {
                break;
            }
            taken -= exchange.request.len();
            outcome.count(exchange.is_entry);
            outcome.write(exchange.answer.as_slice())?;
        }
        if taken > 0 {
            outcome.end = ExecutorEnd::Http(HttpFault::Ended { taken });
        }
        Ok(outcome)
    }

    /// What comes of a link that gives and takes single bytes, behind so many good calls.
    fn failed(&self, alloc: Global, good: usize) -> Result<Outcome, NoMemory> {
        let mut outcome = Outcome::new(alloc, ExecutorEnd::Http(HttpFault::LinkFault));
        let mut left = good;
        for exchange in self.exchanges.iter() {
            if left < exchange.request.len() {
                break;
            }
            left -= exchange.request.len();
            outcome.count(exchange.is_entry);
            if left < exchange.answer.len() {
                outcome.write(&exchange.answer[..left])?;
                break;
            }
            left -= exchange.answer.len();
            outcome.write(exchange.answer.as_slice())?;
        }
        Ok(outcome)
    }

    /// Serves a link.
    fn served<R: Wait>(
        &self,
        rt: &R,
        alloc: Global,
        mut link: MemoryLink,
    ) -> Result<Outcome, NoMemory> {
        let settings = settings(alloc, self.token.as_str())?;
        let mut clock = MemoryClock::new(alloc, beginning());
        let (shared, mut seat) = share_executor(alloc, names(alloc)?, Seq::new(alloc))?;
        let served = serve_executor(
            rt, alloc, &settings, &shared, &mut seat, &mut clock, &mut link,
        );
        let (entries, _held) = close(rt, &shared, seat);
        let mut outcome = Outcome::new(alloc, served.end);
        outcome.requests = served.requests;
        outcome.entries = entries;
        outcome.write(link.taken())?;
        Ok(outcome)
    }

    /// Whether it comes to the same in pieces of the sizes up to this one, and whole.
    fn holds_in_pieces<R: Wait>(
        &self,
        rt: &R,
        alloc: Global,
        bytes: &[u8],
        most: usize,
    ) -> Result<bool, NoMemory> {
        let wanted = self.whole(alloc)?;
        for less in 0..most {
            if !is_tried(less + 1) {
                continue;
            }
            let link = MemoryLink::new(alloc, Vec::from_slice(alloc, bytes)?).in_pieces(less + 1);
            if !self.served(rt, alloc, link)?.is(&wanted) {
                return Ok(false);
            }
        }
        let link = MemoryLink::new(alloc, Vec::from_slice(alloc, bytes)?);
        Ok(self.served(rt, alloc, link)?.is(&wanted))
    }

    /// Whether it ends as it is to behind each byte of its requests.
    fn holds_ended<R: Wait>(
        &self,
        rt: &R,
        alloc: Global,
        requests: &[u8],
    ) -> Result<bool, NoMemory> {
        for given in 0..requests.len() {
            let front = Vec::from_slice(alloc, &requests[..given])?;
            let served = self.served(rt, alloc, MemoryLink::new(alloc, front))?;
            if !served.is(&self.ended(alloc, given)?) {
                return Ok(false);
            }
        }
        Ok(true)
    }

    /// Whether it ends as it is to with each call of a link of single bytes failing in turn.
    fn holds_failing<R: Wait>(
        &self,
        rt: &R,
        alloc: Global,
        requests: &[u8],
    ) -> Result<bool, NoMemory> {
        let calls = match self.exchanges.as_slice() {
            [exchange] => exchange.request.len().saturating_add(exchange.answer.len()),
            _ => 0,
        };
        for good in 0..calls {
            let link = MemoryLink::new(alloc, Vec::from_slice(alloc, requests)?)
                .in_pieces(1)
                .failing(vec![in alloc; good as u64 + 1]?);
            if !self.served(rt, alloc, link)?.is(&self.failed(alloc, good)?) {
                return Ok(false);
            }
        }
        Ok(true)
    }

    /// Whether the request of a row of one is answered, in pieces of each size, on a link whose read behind it
    /// would fail: it is answered at its last byte, and not first when more came.
    fn holds_at_last_byte<R: Wait>(
        &self,
        rt: &R,
        alloc: Global,
        requests: &[u8],
    ) -> Result<bool, NoMemory> {
        let [exchange] = self.exchanges.as_slice() else {
            return Ok(true);
        };
        for less in 0..requests.len() {
            let size = less + 1;
            if !is_tried(size) {
                continue;
            }
            let reads = requests.len().div_ceil(size);
            let link = MemoryLink::new(alloc, Vec::from_slice(alloc, requests)?)
                .in_pieces(size)
                .with_room(usize::MAX)
                .failing(vec![in alloc; (reads as u64).saturating_add(2)]?);
            let served = self.served(rt, alloc, link)?;
            let mut wanted = Outcome::new(alloc, served.end);
            wanted.count(exchange.is_entry);
            wanted.write(exchange.answer.as_slice())?;
            if !served.is(&wanted) {
                return Ok(false);
            }
        }
        Ok(true)
    }

    /// Whether it holds in all ways that it is played.
    fn holds<R: Wait>(&self, rt: &R, alloc: Global) -> Result<bool, NoMemory> {
        let requests = self.requests(alloc)?;
        let mut bytes = self.requests(alloc)?;
        bytes.extend_from_slice(self.behind.as_slice())?;
        if bytes.len() > MOST_VARIED {
            return self.holds_in_pieces(rt, alloc, bytes.as_slice(), 0);
        }
        Ok(
            self.holds_in_pieces(rt, alloc, bytes.as_slice(), bytes.len())?
                && self.holds_ended(rt, alloc, requests.as_slice())?
                && self.holds_failing(rt, alloc, requests.as_slice())?
                && self.holds_at_last_byte(rt, alloc, requests.as_slice())?,
        )
    }
}

/// Whether a row gave what it says.
pub fn is_played<R: Wait>(rt: &R, alloc: Global, row: &str) -> Result<bool, NoMemory> {
    match Connection::of_row(alloc, row)? {
        Some(connection) => connection.holds(rt, alloc),
        None => Ok(false),
    }
}
