//! The row of a log.

ghost use Rattle.std.specs.Prelude.{◌≡◌, IfOk};
ghost use Rattle.job_records.specs.LogClasses.{is_failed, is_awaited};

use job_values::limits::SUCCESS;
use job_values::{
    Address, Block, GroupId, HandlerName, JobId, LogId, Moment, NoMemory, ParamText, ResultText,
    Retries, Route, ShardNo, Timeout, TriggerKind,
};
use rising_rows::Keyed;
use std::alloc::Global;

/// One run of a job, from its firing to its result.
#[derive(Drop)]
pub struct Log {
    pub id: LogId,
    pub job: JobId,
    pub group: GroupId,
    /// Where it was sent.
    pub address: Option<Address>,
    pub handler: HandlerName,
    pub param: ParamText,
    pub block: Block,
    pub route: Route,
    /// In seconds; 0 for none.
    pub timeout: Timeout,
    /// The shard, and how many shards there are.
    pub index: ShardNo,
    pub total: ShardNo,
    /// How often it may still be tried again.
    pub retries: Retries,
    pub kind: TriggerKind,
    /// When it was opened.
    pub time: Moment,
    /// 0 until it was sent or could not be, 200 for success.
    pub trigger_code: i32,
    pub result_time: Option<Moment>,
    /// 0 until it has a result, 200 for success.
    pub result_code: i32,
    pub result_text: ResultText,
    /// Whether it was looked at as a failed one.
    pub marked: bool,
}

impl Keyed for Log {
    ghost key_of = { λ log. log.id };

    fn key(&self) -> u64 {
        self.id.get()
    }
}

impl Log {
    /// Whether it is neither under way nor settled with success.
    pub fn is_failed(&self) -> bool
        ensures { result ≡ is_failed self.now }
    {
        let under_way = (self.trigger_code == 0 || self.trigger_code == SUCCESS)
            && self.result_code == 0;
        !under_way && self.result_code != SUCCESS
    }

    /// Whether it was sent with success and has no result.
    pub fn is_awaited(&self) -> bool
        ensures { result ≡ is_awaited self.now }
    {
        self.trigger_code == SUCCESS && self.result_code == 0
    }

    /// Another row that says the same.
    pub fn copy(&self, alloc: Global) -> Result<Log, NoMemory>
        ensures { IfOk result (λ row. row ≡ self.now) }
    {
        let address = copy_address(alloc, &self.address)?;
        let handler = self.handler.copy(alloc)?;
        let param = self.param.copy(alloc)?;
        let result_text = self.result_text.copy(alloc)?;
        Ok(Log {
            id: self.id,
            job: self.job,
            group: self.group,
            address,
            handler,
            param,
            block: self.block,
            route: self.route,
            timeout: self.timeout,
            index: self.index,
            total: self.total,
            retries: self.retries,
            kind: self.kind,
            time: self.time,
            trigger_code: self.trigger_code,
            result_time: self.result_time,
            result_code: self.result_code,
            result_text,
            marked: self.marked,
        })
    }
}

/// Another address that says the same, where there is one.
fn copy_address(alloc: Global, address: &Option<Address>) -> Result<Option<Address>, NoMemory>
    ensures { IfOk result (λ copy. copy ≡ address.now) }
{
    match address {
        Some(address) => {
            let copy = address.copy(alloc)?;
            Ok(Some(copy))
        }
        None => Ok(None),
    }
}
