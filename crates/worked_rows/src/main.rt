//! Plays the rows of standard input, and tells which of them gave other output or another status than
//! the row says. A row begins with a line `# NAME`, a start that rows go on from with a line `* NAME`;
//! each other line begins with a mark:
//!
//! | Mark | The rest of the line is |
//! |---|---|
//! | `? ` | the words of the command, between bars; without such a line they are `run` |
//! | `+ ` | the name of an earlier start, whose lines and replies stand first |
//! | `< ` | a line that is read |
//! | `<<` | bytes that are read, without a line feed behind them |
//! | `> ` | a line that must be written |
//! | `<*N `, `>*N ` | N such lines, from 1 to N, each with its number where a `%` stands |
//! | `<*M-N `, `>*M-N ` | the same from M to N |
//! | `! ` | the status; without such a line it is 0 |
#![tactic(auto)]

use outside::{BytesSink, BytesSource};
use replay_program::replay_main;
use std::alloc::Global;
use std::io::{self, Read, Write};

/// A row: its name, its words, what is read, and what must be written and answered.
#[derive(Drop)]
struct Row {
    name: Vec<u8>,
    /// Whether it is a start alone, which is not played.
    is_start: bool,
    words: Vec<String>,
    read: Vec<u8>,
    wanted: Vec<u8>,
    status: u8,
}

/// Puts a line behind others.
fn put_line(text: &mut Vec<u8>, line: &[u8]) -> io::Result<()> {
    text.extend_from_slice(line)?;
    text.extend_from_slice(b"\n")?;
    Ok(())
}

/// The number that decimal digits say.
fn number(digits: &[u8]) -> u32 {
    digits.iter().fold(0, |sum: u32, digit| {
        sum.saturating_mul(10)
            .saturating_add(u32::from(digit.saturating_sub(b'0')))
    })
}

/// Puts a line with its number in place of each `%` behind others.
fn put_numbered(text: &mut Vec<u8>, line: &[u8], at: u32) -> io::Result<()> {
    for byte in line {
        if *byte == b'%' {
            write!(text, "{at}")?;
        } else {
            text.push(*byte)?;
        }
    }
    text.push(b'\n')?;
    Ok(())
}

/// Puts numbered lines behind others: as many as the number in front of the first space says, or from
/// the first of two numbers with a dash between them to the second.
fn put_counted(text: &mut Vec<u8>, counted: &[u8]) -> io::Result<()> {
    let mut parts = counted.splitn(2, |b| *b == b' ');
    let mut ends = parts.next().unwrap_or_default().splitn(2, |b| *b == b'-');
    let line = parts.next().unwrap_or_default();
    let first = number(ends.next().unwrap_or_default());
    let (first, last) = match ends.next() {
        Some(last) => (first, number(last)),
        None => (1, first),
    };
    for at in first..last.saturating_add(1) {
        put_numbered(text, line, at)?;
    }
    Ok(())
}

/// The words between bars.
fn words(alloc: Global, line: &[u8]) -> io::Result<Vec<String>> {
    let mut words = Vec::new(alloc);
    for word in line.split(|b| *b == b'|') {
        words.push(String::from_utf8_lossy(alloc, word)?)?;
    }
    Ok(words)
}

impl Row {
    fn new(alloc: Global, name: &[u8], is_start: bool) -> io::Result<Row> {
        Ok(Row {
            name: Vec::from_slice(alloc, name)?,
            is_start,
            words: words(alloc, b"run")?,
            read: Vec::new(alloc),
            wanted: Vec::new(alloc),
            status: 0,
        })
    }

    /// Puts what a start reads and writes behind.
    fn put_first(&mut self, other: &Row) -> io::Result<()> {
        self.read.extend_from_slice(other.read.as_slice())?;
        self.wanted.extend_from_slice(other.wanted.as_slice())?;
        Ok(())
    }

    /// Takes one line of the file; whether it has a mark.
    fn take(&mut self, alloc: Global, line: &[u8]) -> io::Result<bool> {
        match line {
            [b'?', b' ', rest @ ..] => self.words = words(alloc, rest)?,
            [b'<', b' ', rest @ ..] => put_line(&mut self.read, rest)?,
            [b'<', b'<', rest @ ..] => self.read.extend_from_slice(rest)?,
            [b'<', b'*', rest @ ..] => put_counted(&mut self.read, rest)?,
            [b'>', b' ', rest @ ..] => put_line(&mut self.wanted, rest)?,
            [b'>', b'*', rest @ ..] => put_counted(&mut self.wanted, rest)?,
            [b'!', b' ', rest @ ..] => self.status = number(rest).min(255) as u8,
            _ => return Ok(false),
        }
        Ok(true)
    }

    /// Plays the row; whether just what was wanted was written and answered.
    fn is_played(&self, alloc: Global) -> bool {
        let mut source = BytesSource::new(self.read.as_slice());
        let mut sink = BytesSink::new(alloc);
        let status = replay_main(alloc, self.words.as_slice(), &mut source, &mut sink);
        status == self.status && sink.taken() == self.wanted.as_slice()
    }
}

/// The rows of a file, and how many of its lines are none.
#[derive(Drop)]
struct Rows {
    rows: Vec<Row>,
    odd: u64,
}

impl Rows {
    /// Puts what an earlier start reads and writes first into the last row; whether there is one.
    fn begin_with(&mut self, name: &[u8]) -> io::Result<bool> {
        let Some(mut last) = self.rows.pop() else {
            return Ok(false);
        };
        let found = match self.rows.iter().find(|row| row.name.as_slice() == name) {
            Some(row) => {
                last.put_first(row)?;
                true
            }
            None => false,
        };
        self.rows.push(last)?;
        Ok(found)
    }

    /// Takes one line of the file; whether it is one.
    fn take(&mut self, alloc: Global, line: &[u8]) -> io::Result<bool> {
        match line {
            [] => Ok(true),
            [b'#', b' ', name @ ..] => {
                self.rows.push(Row::new(alloc, name, false)?)?;
                Ok(true)
            }
            [b'*', b' ', name @ ..] => {
                self.rows.push(Row::new(alloc, name, true)?)?;
                Ok(true)
            }
            [b'+', b' ', name @ ..] => self.begin_with(name),
            _ => match self.rows.last_mut() {
                Some(row) => row.take(alloc, line),
                None => Ok(false),
            },
        }
    }
}

fn main(rt: HostRuntime) -> io::Result<()> {
    let alloc = rt.alloc();
    let mut file = Vec::new(alloc);
    rt.stdin().read_to_end(&mut file)?;
    let mut rows = Rows {
        rows: Vec::new(alloc),
        odd: 0,
    };
    for line in file.split(|b| *b == b'\n') {
        if !rows.take(alloc, line)? {
            rows.odd = rows.odd.saturating_add(1);
            println!(&rt; "no line: {}", String::from_utf8_lossy(alloc, line)?)?;
        }
    }
    let mut wrong: u64 = 0;
    let mut played: u64 = 0;
    for row in rows.rows.iter().filter(|row| !row.is_start) {
        played = played.saturating_add(1);
        if !row.is_played(alloc) {
            wrong = wrong.saturating_add(1);
            println!(&rt;
                "differs: {}",
                String::from_utf8_lossy(alloc, row.name.as_slice())?
            )?;
        }
    }
    println!(&rt;
        "{played} rows, {wrong} wrong, {} lines without a mark",
        rows.odd
    )
}
