//! Events written as their lines.
ghost use Rattle.job_values.specs.declared.limits.TheConstants.{LAST_JOB_ID, LONGEST_NAME, LONGEST_RESULT, LONGEST_SCHEDULE_GIVEN};
ghost use Rattle.std.specs.Prelude.{◌≡◌, ◌∷◌, ◌++◌, IfOk, OnOk, decimal};
ghost use Rattle.std.specs.List.{AllByRecursion};
ghost use Rattle.line_grammar.specs.Dashes.{number_form};
ghost use Rattle.line_grammar.specs.Laws.{IsNumberOf, IsTextOf};
ghost use Rattle.line_grammar.specs.Writing.{spaced_number, spaced_text, counted_texts, counted_numbers};
ghost use Rattle.line_grammar.specs.Texts.{text_form};
ghost use Rattle.job_values.specs.Words.{group_kind_text};
ghost use Rattle.job_events.specs.declared.cluster.ClusterEvent.TheVariants.{AddGroup, SetGroup, AddJob, TriggerJob, Take, Sent, Registry, RegistryRemove};
ghost use Rattle.script_text.specs.Lines.{IsLine};
ghost use Rattle.script_text.specs.Spelling.{spelling, event_words, spec_text, trigger_text, work_text, zone_text, item_text, spaced_code, IsAdmin, IsMoment, IsId, IsRegistryText, IsWithin, CodeFits, ItemFits, SpecFits, WorkFits, AddressesFit};

use crate::laws::law_one_line;
use job_events::ClusterEvent;
use job_values::{
    Address, Addresses, AdminNo, AppName, BoundedText, CallbackItem, GroupId, GroupKind, JobId,
    JobSpec, LogId, Moment, NoMemory, ParamText, PoolKind, RegistryText, Seq, ZoneText,
};
use line_grammar::{
    End, write_bounded, write_byte, write_number, write_optional, write_signed, write_texts,
    write_word,
};
use std::alloc::Global;

/// A number behind a space.
pub(crate) fn put_number(out: &mut Vec<u8>, number: u64) -> Result<(), NoMemory>
    ensures { OnOk result (out.new.items ≡ out.old.items ++ spaced_number number) }
{
    write_byte(out, b' ')?;
    write_number(out, number)
}

/// A signed code behind a space.
pub(crate) fn put_code(out: &mut Vec<u8>, code: i32) -> Result<(), NoMemory>
    ensures written { OnOk result (out.new.items ≡ out.old.items ++ spaced_code code) }
    ensures within { CodeFits code }
{
    write_byte(out, b' ')?;
    write_signed(out, code)
}

/// A fixed word behind a space.
pub(crate) fn put_word(out: &mut Vec<u8>, word: &str) -> Result<(), NoMemory>
    ensures { OnOk result (out.new.items ≡ out.old.items ++ 32 ∷ word.now) }
{
    write_byte(out, b' ')?;
    write_word(out, word)
}

/// A text behind a space.
pub(crate) fn put_text<const LEAST: usize, const MOST: usize>(
    out: &mut Vec<u8>,
    text: &BoundedText<LEAST, MOST>,
) -> Result<(), NoMemory>
    ensures written { OnOk result (out.new.items ≡ out.old.items ++ spaced_text text.now) }
    ensures within { OnOk result (IsTextOf (text_form LEAST MOST End.Line) text.now) }
{
    write_byte(out, b' ')?;
    write_bounded(out, text)
}

fn put_children(out: &mut Vec<u8>, children: &[JobId]) -> Result<(), NoMemory>
    ensures written { OnOk result (out.new.items ≡ out.old.items ++ counted_numbers children.now) }
    ensures within { OnOk result (AllByRecursion (IsNumberOf (number_form 1 LAST_JOB_ID End.Line)) children.now) }
{
    write_number(out, children.len() as u64)?;
    for child in children {
        put_number(out, u64::from(child.get()))?;
    }
    Ok(())
}

/// When a job fires, and where it runs.
fn put_trigger(out: &mut Vec<u8>, spec: &JobSpec) -> Result<(), NoMemory>
    ensures written { OnOk result (out.new.items ≡ out.old.items ++ trigger_text spec.now) }
    ensures within { OnOk result (IsId spec.now.group × IsTextOf (text_form 0 LONGEST_SCHEDULE_GIVEN End.Line) spec.now.schedule) }
{
    write_number(out, u64::from(spec.group.get()))?;
    put_word(out, spec.kind.text())?;
    put_text(out, &spec.schedule)?;
    put_word(out, spec.misfire.text())?;
    put_word(out, spec.route.text())?;
    put_word(out, spec.block.text())
}

/// What a job runs, for how long and how often, and what fires after it.
fn put_work(out: &mut Vec<u8>, spec: &JobSpec) -> Result<(), NoMemory>
    ensures written { OnOk result (out.new.items ≡ out.old.items ++ work_text spec.now) }
    ensures within { OnOk result (WorkFits spec.now) }
{
    put_text(out, &spec.handler)?;
    put_text(out, &spec.param)?;
    put_number(out, u64::from(spec.timeout.get()))?;
    put_number(out, u64::from(spec.retries.get()))?;
    write_byte(out, b' ')?;
    put_children(out, spec.children.as_slice())
}

/// The zone that a spec names, behind its word.
fn put_zone(out: &mut Vec<u8>, zone: &ZoneText) -> Result<(), NoMemory>
    ensures written { OnOk result (out.new.items ≡ out.old.items ++ zone_text zone.now) }
    ensures within { OnOk result (IsTextOf (text_form 0 LONGEST_NAME End.Line) zone.now) }
{
    match zone.get().as_bytes() {
        [] => Ok(()),
        [_, ..] => {
            write_word(out, " zone ")?;
            write_bounded(out, zone)
        }
    }
}

fn put_spec(out: &mut Vec<u8>, spec: &JobSpec) -> Result<(), NoMemory>
    ensures written { OnOk result (out.new.items ≡ out.old.items ++ spec_text spec.now) }
    ensures within { OnOk result (SpecFits spec.now) }
{
    put_trigger(out, spec)?;
    put_work(out, spec)?;
    put_zone(out, &spec.zone)
}

/// A first word and an admin.
fn put_admin(out: &mut Vec<u8>, word: &str, admin: AdminNo) -> Result<(), NoMemory>
    ensures written { OnOk result (out.new.items ≡ out.old.items ++ (word.now ++ decimal admin)) }
    ensures within { IsAdmin admin }
{
    write_word(out, word)?;
    write_number(out, u64::from(admin.get()))
}

/// A first word, an admin and a moment.
fn put_admin_at(out: &mut Vec<u8>, word: &str, admin: AdminNo, at: Moment) -> Result<(), NoMemory>
    ensures written { OnOk result (out.new.items ≡ out.old.items ++ (word.now ++ decimal admin ++ spaced_number at)) }
    ensures within { OnOk result (IsAdmin admin × IsMoment at) }
{
    put_admin(out, word, admin)?;
    put_number(out, at.get())
}

/// A first word and a job.
fn put_job(out: &mut Vec<u8>, word: &str, job: JobId) -> Result<(), NoMemory>
    ensures written { OnOk result (out.new.items ≡ out.old.items ++ (word.now ++ decimal job)) }
    ensures within { IsId job }
{
    write_word(out, word)?;
    write_number(out, u64::from(job.get()))
}

/// A first word, a moment and a job.
fn put_job_at(out: &mut Vec<u8>, word: &str, at: Moment, job: JobId) -> Result<(), NoMemory>
    ensures written { OnOk result (out.new.items ≡ out.old.items ++ (word.now ++ decimal at ++ spaced_number job)) }
    ensures within { OnOk result (IsMoment at × IsId job) }
{
    write_word(out, word)?;
    write_number(out, at.get())?;
    put_number(out, u64::from(job.get()))
}

/// Who writes the addresses of a group, and the addresses.
fn put_group(out: &mut Vec<u8>, kind: GroupKind, addresses: &Addresses) -> Result<(), NoMemory>
    ensures written { OnOk result (out.new.items ≡ out.old.items ++ (32 ∷ group_kind_text kind ++ 32 ∷ counted_texts addresses.now)) }
    ensures within { OnOk result (AddressesFit addresses.now) }
{
    put_word(out, kind.text())?;
    write_byte(out, b' ')?;
    write_texts(out, addresses.as_slice())
}

/// A group that is added.
fn put_new_group(
    out: &mut Vec<u8>,
    app: &AppName,
    kind: GroupKind,
    addresses: &Addresses,
) -> Result<(), NoMemory>
    ensures written { OnOk result (out.new.items ≡ out.old.items ++ event_words (AddGroup app.now kind addresses.now)) }
    ensures within { OnOk result (IsWithin (AddGroup app.now kind addresses.now)) }
{
    write_word(out, "addgroup ")?;
    write_bounded(out, app)?;
    put_group(out, kind, addresses)
}

/// Another kind and other addresses of a group.
fn put_other_group(
    out: &mut Vec<u8>,
    group: GroupId,
    kind: GroupKind,
    addresses: &Addresses,
) -> Result<(), NoMemory>
    ensures written { OnOk result (out.new.items ≡ out.old.items ++ event_words (SetGroup group kind addresses.now)) }
    ensures within { OnOk result (IsWithin (SetGroup group kind addresses.now)) }
{
    write_word(out, "setgroup ")?;
    write_number(out, u64::from(group.get()))?;
    put_group(out, kind, addresses)
}

/// A job that is added.
fn put_new_job(out: &mut Vec<u8>, spec: &JobSpec) -> Result<(), NoMemory>
    ensures written { OnOk result (out.new.items ≡ out.old.items ++ event_words (AddJob spec.now)) }
    ensures within { OnOk result (IsWithin (AddJob spec.now)) }
{
    write_word(out, "addjob ")?;
    put_spec(out, spec)
}

/// A firing by hand.
fn put_fire(
    out: &mut Vec<u8>,
    admin: AdminNo,
    at: Moment,
    job: JobId,
    param: &Option<ParamText>,
) -> Result<(), NoMemory>
    ensures written { OnOk result (out.new.items ≡ out.old.items ++ event_words (TriggerJob admin at job param.now)) }
    ensures within { OnOk result (IsWithin (TriggerJob admin at job param.now)) }
{
    put_admin_at(out, "fire ", admin, at)?;
    put_number(out, u64::from(job.get()))?;
    write_byte(out, b' ')?;
    write_optional(out, param)
}

/// A first word and a moment.
fn put_at(out: &mut Vec<u8>, word: &str, at: Moment) -> Result<(), NoMemory>
    ensures written { OnOk result (out.new.items ≡ out.old.items ++ (word.now ++ decimal at)) }
    ensures within { IsMoment at }
{
    write_word(out, word)?;
    write_number(out, at.get())
}

/// The result of a log.
fn put_item(out: &mut Vec<u8>, item: &CallbackItem) -> Result<(), NoMemory>
    ensures written { OnOk result (out.new.items ≡ out.old.items ++ item_text item.now) }
    ensures within { OnOk result (ItemFits item.now) }
{
    put_number(out, item.log.get())?;
    put_number(out, item.log_moment.get())?;
    put_code(out, item.code)?;
    put_text(out, &item.msg)
}

/// A registration.
fn put_registry(
    out: &mut Vec<u8>,
    at: Moment,
    group: &RegistryText,
    key: &RegistryText,
    value: &RegistryText,
) -> Result<(), NoMemory>
    ensures written { OnOk result (out.new.items ≡ out.old.items ++ event_words (Registry at group.now key.now value.now)) }
    ensures within { OnOk result (IsWithin (Registry at group.now key.now value.now)) }
{
    put_at(out, "reg ", at)?;
    put_text(out, group)?;
    put_text(out, key)?;
    put_text(out, value)
}

/// The end of a registration.
fn put_removal(
    out: &mut Vec<u8>,
    group: &RegistryText,
    key: &RegistryText,
    value: &RegistryText,
) -> Result<(), NoMemory>
    ensures written { OnOk result (out.new.items ≡ out.old.items ++ event_words (RegistryRemove group.now key.now value.now)) }
    ensures within { OnOk result (IsWithin (RegistryRemove group.now key.now value.now)) }
{
    write_word(out, "unreg ")?;
    write_bounded(out, group)?;
    put_text(out, key)?;
    put_text(out, value)
}

/// A take from a pool.
fn put_take(
    out: &mut Vec<u8>,
    admin: AdminNo,
    pool: PoolKind,
    at: Moment,
    word: u64,
) -> Result<(), NoMemory>
    ensures written { OnOk result (out.new.items ≡ out.old.items ++ event_words (Take admin pool at word)) }
    ensures within { OnOk result (IsWithin (Take admin pool at word)) }
{
    put_admin(out, "take ", admin)?;
    put_word(out, pool.text())?;
    put_number(out, at.get())?;
    put_number(out, word)
}

/// A sending, which began and ended at these moments.
fn put_sent(
    out: &mut Vec<u8>,
    log: LogId,
    address: &Option<Address>,
    code: i32,
    start: Moment,
    end: Moment,
) -> Result<(), NoMemory>
    ensures written { OnOk result (out.new.items ≡ out.old.items ++ event_words (Sent log address.now code start end)) }
    ensures within { OnOk result (IsWithin (Sent log address.now code start end)) }
{
    write_word(out, "sent ")?;
    write_number(out, log.get())?;
    write_byte(out, b' ')?;
    write_optional(out, address)?;
    put_code(out, code)?;
    put_number(out, start.get())?;
    put_number(out, end.get())
}

/// An event behind the bytes that are there, up to its LF.
fn put_event(out: &mut Vec<u8>, event: &ClusterEvent) -> Result<(), NoMemory>
    ensures written { OnOk result (out.new.items ≡ out.old.items ++ event_words event.now) }
    ensures within { OnOk result (IsWithin event.now) }
{
    match event {
        ClusterEvent::NodeStart(admin) => put_admin(out, "start ", *admin),
        ClusterEvent::NodeStop(admin) => put_admin(out, "stop ", *admin),
        ClusterEvent::NodeAsk(admin) => put_admin(out, "ask ", *admin),
        ClusterEvent::AddGroup(app, kind, addresses) => put_new_group(out, app, *kind, addresses),
        ClusterEvent::SetGroup(group, kind, addresses) => {
            put_other_group(out, *group, *kind, addresses)
        }
        ClusterEvent::AddJob(spec) => put_new_job(out, spec),
        ClusterEvent::UpdateJob(at, job, spec) => {
            put_job_at(out, "setjob ", *at, *job)?;
            write_byte(out, b' ')?;
            put_spec(out, spec)
        }
        ClusterEvent::StartJob(at, job) => put_job_at(out, "startjob ", *at, *job),
        ClusterEvent::StopJob(job) => put_job(out, "stopjob ", *job),
        ClusterEvent::RemoveJob(job) => put_job(out, "dropjob ", *job),
        ClusterEvent::TriggerJob(admin, at, job, param) => put_fire(out, *admin, *at, *job, param),
        ClusterEvent::ScanBegin(admin, at) => put_admin_at(out, "scan ", *admin, *at),
        ClusterEvent::ScanStep(admin) => put_admin(out, "step ", *admin),
        ClusterEvent::Turn(admin, at) => put_admin_at(out, "turn ", *admin, *at),
        ClusterEvent::Take(admin, pool, at, word) => put_take(out, *admin, *pool, *at, *word),
        ClusterEvent::Sent(log, address, code, start, end) => {
            put_sent(out, *log, address, *code, *start, *end)
        }
        ClusterEvent::Callback(admin, at, item) => {
            put_admin_at(out, "back ", *admin, *at)?;
            put_item(out, item)
        }
        ClusterEvent::Registry(at, group, key, value) => put_registry(out, *at, group, key, value),
        ClusterEvent::RegistryRemove(group, key, value) => put_removal(out, group, key, value),
        ClusterEvent::Sweep(at) => put_at(out, "sweep ", *at),
        ClusterEvent::Monitor(admin, at) => put_admin_at(out, "monitor ", *admin, *at),
        ClusterEvent::Lost(at) => put_at(out, "lost ", *at),
        ClusterEvent::Clean(at) => put_at(out, "clean ", *at),
        ClusterEvent::ReadLog(log) => {
            write_word(out, "showlog ")?;
            write_number(out, log.get())
        }
        ClusterEvent::Reopen => write_word(out, "reopen"),
    }
}

/// The one line of an event, with its LF.
pub fn write_line(alloc: Global, event: &ClusterEvent) -> Result<Seq<u8>, NoMemory>
    ensures spelled { IfOk result (λ bytes. bytes ≡ spelling event.now) }
    // The line of the event, and no other bytes are one.
    ensures line { IfOk result (λ bytes. IsLine event.now bytes) }
    // The values of an event are always within the bounds of a line.
    ensures within { OnOk result (IsWithin event.now) }
{
    law_one_line();
    let bytes = spelled(alloc, event)?;
    Ok(bytes)
}

fn spelled(alloc: Global, event: &ClusterEvent) -> Result<Seq<u8>, NoMemory>
    ensures spelled { IfOk result (λ bytes. bytes ≡ spelling event.now) }
    ensures within { OnOk result (IsWithin event.now) }
{
    let mut out = Vec::new(alloc);
    put_event(&mut out, event)?;
    write_byte(&mut out, b'\n')?;
    Ok(Seq::of(out))
}
