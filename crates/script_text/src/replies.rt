//! The texts of replies and of the report.
ghost use Rattle.std.specs.Prelude.{◌≡◌, ◌∷◌, ◌++◌, length, codes, IfOk, OnOk};
ghost use Rattle.script_text.specs.Replies.{optional_word, opened_word, opened_words, ticket_words, child_words, refusal_text, shown_log, shown_work, shown_trigger, shown_result, reply_words, reply_text, report_text};
ghost use Rattle.std.specs.List.{flat_map};
ghost use Rattle.line_grammar.specs.Writing.{spaced_number};
ghost use Rattle.job_values.specs.Words.{case_text};
ghost use Rattle.script_text.specs.Spelling.{spaced_code};

use crate::orders::put_order;
use crate::writing::{put_code, put_number, put_text, put_word};
use job_events::{ClusterRefusal, ClusterReply, FiredChild, FiredTicket, Opened, Report, ShownLog};
use job_values::{Case, JobId, Moment, NoMemory, Seq};
use line_grammar::{write_byte, write_optional, write_word};
use std::alloc::Global;

fn put_optional(out: &mut Vec<u8>, moment: Option<Moment>) -> Result<(), NoMemory>
    ensures { OnOk result (out.new.items ≡ out.old.items ++ optional_word moment) }
{
    match moment {
        None => write_word(out, " -"),
        Some(at) => put_number(out, at.get()),
    }
}

fn put_opened(out: &mut Vec<u8>, opened: &Opened) -> Result<(), NoMemory>
    ensures { OnOk result (out.new.items ≡ out.old.items ++ opened_word opened.now) }
{
    put_number(out, opened.log.get())?;
    write_byte(out, b':')?;
    write_word(out, opened.pool.text())
}

fn put_all_opened(out: &mut Vec<u8>, opened: &[Opened]) -> Result<(), NoMemory>
    ensures { OnOk result (out.new.items ≡ out.old.items ++ opened_words opened.now) }
{
    put_number(out, opened.len() as u64)?;
    for one in opened {
        put_opened(out, one)?;
    }
    Ok(())
}

fn put_ticket(out: &mut Vec<u8>, ticket: &FiredTicket) -> Result<(), NoMemory>
    ensures { OnOk result (out.new.items ≡ out.old.items ++ ticket_words ticket.now) }
{
    put_number(out, u64::from(ticket.job.get()))?;
    put_number(out, ticket.edition)?;
    put_number(out, ticket.due.get())?;
    put_all_opened(out, ticket.opened.as_slice())
}

fn put_tickets(out: &mut Vec<u8>, tickets: &[FiredTicket]) -> Result<(), NoMemory>
    ensures { OnOk result (out.new.items ≡ out.old.items ++ flat_map ticket_words tickets.now) }
{
    for ticket in tickets {
        put_ticket(out, ticket)?;
    }
    Ok(())
}

/// The tickets that a turn took.
fn put_fired(out: &mut Vec<u8>, tickets: &[FiredTicket]) -> Result<(), NoMemory>
    ensures { OnOk result (out.new.items ≡ out.old.items ++ (codes "fired" ++ spaced_number (length tickets.now) ++ flat_map ticket_words tickets.now)) }
{
    put_count(out, "fired", tickets.len() as u64)?;
    put_tickets(out, tickets)
}

fn put_child(out: &mut Vec<u8>, child: &FiredChild) -> Result<(), NoMemory>
    ensures { OnOk result (out.new.items ≡ out.old.items ++ child_words child.now) }
{
    put_number(out, u64::from(child.job.get()))?;
    put_all_opened(out, child.opened.as_slice())
}

fn put_children(out: &mut Vec<u8>, children: &[FiredChild]) -> Result<(), NoMemory>
    ensures { OnOk result (out.new.items ≡ out.old.items ++ flat_map child_words children.now) }
{
    for child in children {
        put_child(out, child)?;
    }
    Ok(())
}

/// That a log is settled: its code, and the children that it fired.
fn put_settled(out: &mut Vec<u8>, code: i32, children: &[FiredChild]) -> Result<(), NoMemory>
    ensures { OnOk result (out.new.items ≡ out.old.items ++ (codes "settled" ++ spaced_code code ++ spaced_number (length children.now) ++ flat_map child_words children.now)) }
{
    write_word(out, "settled")?;
    put_code(out, code)?;
    put_number(out, children.len() as u64)?;
    put_children(out, children)
}

fn put_refusal(out: &mut Vec<u8>, refusal: ClusterRefusal) -> Result<(), NoMemory>
    ensures { OnOk result (out.new.items ≡ out.old.items ++ refusal_text refusal) }
{
    match refusal {
        ClusterRefusal::NodeRunning(admin) => {
            put_count(out, "NodeRunning", u64::from(admin.get()))
        }
        ClusterRefusal::NodeStopped(admin) => {
            put_count(out, "NodeStopped", u64::from(admin.get()))
        }
        ClusterRefusal::Busy(owner) => put_count(out, "Busy", u64::from(owner.get())),
        ClusterRefusal::NotScanning => write_word(out, "NotScanning"),
        ClusterRefusal::Empty => write_word(out, "Empty"),
        ClusterRefusal::BadCode => write_word(out, "BadCode"),
        ClusterRefusal::AlreadySent(code) => put_coded(out, "AlreadySent", code),
        ClusterRefusal::NotTaken => write_word(out, "NotTaken"),
        ClusterRefusal::WrongAddress => write_word(out, "WrongAddress"),
        ClusterRefusal::Repeat(code) => put_coded(out, "Repeat", code),
        ClusterRefusal::BadRegistry => write_word(out, "BadRegistry"),
        ClusterRefusal::NothingDone => write_word(out, "NothingDone"),
        ClusterRefusal::NoGroup => write_word(out, "NoGroup"),
        ClusterRefusal::NoJob => write_word(out, "NoJob"),
        ClusterRefusal::NoLog => write_word(out, "NoLog"),
        ClusterRefusal::BadSchedule(fault) => put_counts(
            out,
            "BadSchedule",
            u64::from(fault.field),
            u64::from(fault.place),
        ),
        ClusterRefusal::BadZone(fault) => put_count(out, "BadZone", u64::from(fault.place)),
        ClusterRefusal::NoNext => write_word(out, "NoNext"),
        ClusterRefusal::TooMany(limit) => put_count(out, "TooMany", u64::from(limit)),
        ClusterRefusal::IdsSpent => write_word(out, "IdsSpent"),
    }
}

/// What a look found: the job, the case, its due time, its new next time, and the time that was put.
fn put_look(
    out: &mut Vec<u8>,
    job: JobId,
    case: Case,
    due: Moment,
    next: Option<Moment>,
    put: Option<Moment>,
) -> Result<(), NoMemory>
    ensures { OnOk result (out.new.items ≡ out.old.items ++ (spaced_number job ++ 32 ∷ case_text case ++ spaced_number due ++ optional_word next ++ optional_word put)) }
{
    put_number(out, u64::from(job.get()))?;
    put_word(out, case.text())?;
    put_number(out, due.get())?;
    put_optional(out, next)?;
    put_optional(out, put)
}

/// Which log is shown, and where it was sent.
fn put_shown_log(out: &mut Vec<u8>, log: &ShownLog) -> Result<(), NoMemory>
    ensures { OnOk result (out.new.items ≡ out.old.items ++ shown_log log.now) }
{
    put_number(out, log.log.get())?;
    put_number(out, u64::from(log.job.get()))?;
    put_number(out, u64::from(log.group.get()))?;
    write_byte(out, b' ')?;
    write_optional(out, &log.address)
}

/// What it runs.
fn put_shown_work(out: &mut Vec<u8>, log: &ShownLog) -> Result<(), NoMemory>
    ensures { OnOk result (out.new.items ≡ out.old.items ++ shown_work log.now) }
{
    put_text(out, &log.handler)?;
    put_text(out, &log.param)?;
    put_number(out, u64::from(log.index.get()))?;
    put_number(out, u64::from(log.total.get()))
}

/// How it was opened and sent.
fn put_shown_trigger(out: &mut Vec<u8>, log: &ShownLog) -> Result<(), NoMemory>
    ensures { OnOk result (out.new.items ≡ out.old.items ++ shown_trigger log.now) }
{
    put_number(out, u64::from(log.retries.get()))?;
    put_word(out, log.kind.text())?;
    put_number(out, log.time.get())?;
    put_code(out, log.trigger_code)
}

/// Its result, and its mark.
fn put_shown_result(out: &mut Vec<u8>, log: &ShownLog) -> Result<(), NoMemory>
    ensures { OnOk result (out.new.items ≡ out.old.items ++ shown_result log.now) }
{
    put_optional(out, log.result_time)?;
    put_code(out, log.result_code)?;
    put_text(out, &log.result_text)?;
    put_word(out, if log.marked { "marked" } else { "unmarked" })
}

fn put_shown(out: &mut Vec<u8>, log: &ShownLog) -> Result<(), NoMemory>
    ensures { OnOk result (out.new.items ≡ out.old.items ++ (codes "log" ++ (shown_log log.now ++ shown_work log.now ++ shown_trigger log.now ++ shown_result log.now))) }
{
    write_word(out, "log")?;
    put_shown_log(out, log)?;
    put_shown_work(out, log)?;
    put_shown_trigger(out, log)?;
    put_shown_result(out, log)
}

/// A word and a code.
fn put_coded(out: &mut Vec<u8>, word: &str, code: i32) -> Result<(), NoMemory>
    ensures { OnOk result (out.new.items ≡ out.old.items ++ (word.now ++ spaced_code code)) }
{
    write_word(out, word)?;
    put_code(out, code)
}

/// A word and a number.
fn put_count(out: &mut Vec<u8>, word: &str, number: u64) -> Result<(), NoMemory>
    ensures { OnOk result (out.new.items ≡ out.old.items ++ (word.now ++ spaced_number number)) }
{
    write_word(out, word)?;
    put_number(out, number)
}

/// A word and two numbers.
fn put_counts(out: &mut Vec<u8>, word: &str, first: u64, second: u64) -> Result<(), NoMemory>
    ensures { OnOk result (out.new.items ≡ out.old.items ++ (word.now ++ spaced_number first ++ spaced_number second)) }
{
    put_count(out, word, first)?;
    put_number(out, second)
}

fn put_reply(out: &mut Vec<u8>, reply: &ClusterReply) -> Result<(), NoMemory>
    ensures { OnOk result (out.new.items ≡ out.old.items ++ reply_words reply.now) }
{
    match reply {
        ClusterReply::Done => write_word(out, "ok"),
        ClusterReply::Group(id) => put_count(out, "group", u64::from(id.get())),
        ClusterReply::Job(id) => put_count(out, "job", u64::from(id.get())),
        ClusterReply::Running(edition, next) => put_counts(out, "running", *edition, next.get()),
        ClusterReply::Updated(edition, next) => {
            put_count(out, "updated", *edition)?;
            put_optional(out, *next)
        }
        ClusterReply::Halted(edition) => put_count(out, "halted", *edition),
        ClusterReply::Begun(count) => put_count(out, "begun", *count),
        ClusterReply::Skip(job) => put_count(out, "skip", u64::from(job.get())),
        ClusterReply::Look {
            job,
            case,
            due,
            next,
            put,
            opened,
        } => {
            write_word(out, "look")?;
            put_look(out, *job, *case, *due, *next, *put)?;
            put_all_opened(out, opened.as_slice())
        }
        ClusterReply::Fired(tickets) => put_fired(out, tickets.as_slice()),
        ClusterReply::Opened(opened) => {
            write_word(out, "opened")?;
            put_all_opened(out, opened.as_slice())
        }
        ClusterReply::Took(order) => {
            write_word(out, "took")?;
            put_order(out, order)
        }
        ClusterReply::Settled { code, children } => put_settled(out, *code, children.as_slice()),
        ClusterReply::Swept(count) => put_count(out, "swept", *count),
        ClusterReply::Marked { log, opened } => {
            put_count(out, "marked", log.get())?;
            put_all_opened(out, opened.as_slice())
        }
        ClusterReply::Lost(log) => put_count(out, "lost", log.get()),
        ClusterReply::Cleaned(count) => put_count(out, "cleaned", *count),
        ClusterReply::Shown(log) => put_shown(out, log),
        ClusterReply::Stopped { lost, ended } => put_counts(out, "stopped", *lost, *ended),
        ClusterReply::Reopened { lost, ended } => put_counts(out, "reopened", *lost, *ended),
        ClusterReply::Refused(refusal) => {
            write_word(out, "no ")?;
            put_refusal(out, *refusal)
        }
    }
}

/// A reply as a line, with its LF.
pub fn write_reply(alloc: Global, reply: &ClusterReply) -> Result<Seq<u8>, NoMemory>
    ensures { IfOk result (λ bytes. bytes ≡ reply_text reply.now) }
{
    let mut out = Vec::new(alloc);
    put_reply(&mut out, reply)?;
    write_byte(&mut out, b'\n')?;
    Ok(Seq::of(out))
}

/// A report as a line, with its LF.
pub fn write_report(alloc: Global, report: &Report) -> Result<Seq<u8>, NoMemory>
    ensures { IfOk result (λ bytes. bytes ≡ report_text report.now) }
{
    let mut out = Vec::new(alloc);
    write_word(&mut out, "end entries")?;
    put_number(&mut out, report.entries)?;
    write_word(&mut out, " jobs")?;
    put_number(&mut out, report.jobs)?;
    write_word(&mut out, " logs")?;
    put_number(&mut out, report.logs)?;
    write_word(&mut out, " settled")?;
    put_number(&mut out, report.settled)?;
    write_word(&mut out, " failed")?;
    put_number(&mut out, report.failed)?;
    write_word(&mut out, " waiting")?;
    put_number(&mut out, report.waiting)?;
    write_word(&mut out, " queued")?;
    put_number(&mut out, report.queued)?;
    write_word(&mut out, " held")?;
    put_number(&mut out, report.held)?;
    write_byte(&mut out, b'\n')?;
    Ok(Seq::of(out))
}
