//! Reads command lines of the two node programs, one a line: the name of the program, and behind each
//! bar a word. It writes the options that the words say, or why there are none.
#![tactic(auto)]

use option_command::{AdminOptions, ExecutorOptions, WordsRefusal, read_admin, read_executor};
use std::alloc::{AllocError, Global};
use std::io;

/// Why there are no options, with the first line of what `clap` says.
fn refused(alloc: Global, why: WordsRefusal) -> Result<String, AllocError> {
    match why {
        WordsRefusal::Words(error) => {
            let text = format!(in alloc; "{error}")?;
            let first = text.as_str().lines().next().unwrap_or("");
            format!(in alloc; "words: {first}")
        }
        WordsRefusal::Form => String::from_str(alloc, "form"),
        WordsRefusal::Memory => String::from_str(alloc, "memory"),
    }
}

fn admin(alloc: Global, options: &AdminOptions) -> Result<String, AllocError> {
    let (port, nodes, offset) = (options.port, options.nodes, options.offset.get());
    let (fast, slow) = (options.fast, options.slow);
    let (token, base) = (options.token.as_str(), options.base.as_str());
    let numbers = format!(in alloc;
        "port {port} nodes {nodes} offset {offset} fast {fast} slow {slow}"
    )?;
    let numbers = numbers.as_str();
    match &options.db {
        Some(db) => {
            let db = db.as_str();
            format!(in alloc; "{numbers} token [{token}] base [{base}] db [{db}]")
        }
        None => format!(in alloc; "{numbers} token [{token}] base [{base}] no db"),
    }
}

fn executor(alloc: Global, options: &ExecutorOptions) -> Result<String, AllocError> {
    let (port, runners) = (options.port, options.runners);
    let (app, address) = (options.app.as_str(), options.address.as_str());
    let (base, token) = (options.base.as_str(), options.token.as_str());
    let spool = options.spool.as_str();
    let mut told = format!(in alloc;
        "port {port} runners {runners} app [{app}] address [{address}] admins"
    )?;
    for admin in options.admins.as_slice() {
        let admin = admin.as_str();
        let word = format!(in alloc; " [{admin}]")?;
        told.push_str(word.as_str())?;
    }
    let rest = format!(in alloc; " base [{base}] token [{token}] spool [{spool}]")?;
    told.push_str(rest.as_str())?;
    Ok(told)
}

/// What the words of a program say.
fn told(alloc: Global, program: &str, words: &[String]) -> Result<String, AllocError> {
    match program {
        "xxl_admin" => match read_admin(alloc, words) {
            Ok(options) => admin(alloc, &options),
            Err(why) => refused(alloc, why),
        },
        "xxl_executor" => match read_executor(alloc, words) {
            Ok(options) => executor(alloc, &options),
            Err(why) => refused(alloc, why),
        },
        _ => String::from_str(alloc, "no program"),
    }
}

/// The answer to a line.
fn answer(alloc: Global, line: &str) -> io::Result<String> {
    let mut parts = line.split('|');
    let program = parts.next().unwrap_or("");
    let mut words = Vec::new(alloc);
    for word in parts {
        words.push(String::from_str(alloc, word)?)?;
    }
    Ok(told(alloc, program, words.as_slice())?)
}

fn main(rt: HostRuntime) -> io::Result<()> {
    let alloc = rt.alloc();
    for line in rt.lines(alloc) {
        let told = answer(alloc, line?.as_str())?;
        println!(&rt; "{told}")?;
    }
    Ok(())
}
