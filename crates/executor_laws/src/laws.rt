//! The laws of an executor: what holds of every legal history.
ghost use Rattle.std.specs.Prelude.{◌≡◌, ◌+◌, ◌≤◌, ◌==◌, ◌&&◌, ℕ, Bool, false, List, [], ◌∷◌, ◌++◌, Some, find, length, if◌then◌else◌};
ghost use Rattle.std.specs.List.{AllByRecursion as Each};
ghost use Rattle.job_values.specs.declared.run.CallbackItem.{CallbackItem};
ghost use Rattle.job_values.specs.declared.run.Run.{Run};
ghost use Rattle.job_events.specs.declared.executor.ExecutorEvent.{ExecutorEvent};
ghost use Rattle.job_events.specs.declared.executor.ExecutorReply.{ExecutorReply};
ghost use Rattle.job_events.specs.declared.executor.ExecutorEvent.TheVariants as event;
ghost use Rattle.executor_history.specs.History.{History, After, accepted, is_refusal};
ghost use Rattle.job_lane.specs.Runs.{is_running};
ghost use Rattle.executor_history.specs.declared.records.Queued.{Queued};
ghost use Rattle.executor_history.specs.declared.records.Working.{Working};
ghost use Rattle.executor_history.specs.Past.{held, is_among, known, known_of, queued, on_runners};
ghost use Rattle.executor_history.specs.Places.{Entry, after_all, places, before, entry_at};
ghost use Rattle.executor_history.specs.Replies.{reply_of};
ghost use Rattle.executor_history.specs.Runs.{is_running_of};
ghost use Rattle.executor_history.specs.Legal.{IsLegal};
ghost use Rattle.executor_laws.specs.Given.{RunItem, times, gives, given, items_of, kept_items, acknowledged};
ghost use Rattle.executor_laws.specs.Kept.{is_held, known_at};
ghost use Rattle.executor_laws.specs.Queue.{waits, runs, IsAccepted, InOrder};
ghost use Rattle.executor_laws.specs.Results.{result_of, result_in, result_told, IsOfRun, BeganEmpty, batch_told};

/// No run of a log is accepted while its id is held; each run is given at most one item; and the items that are kept
/// are those that were given, each as often, but those of the acknowledged batches.
pub fn law_held()
    ensures alone { (h : History) (run : Run) (at : ℕ) (r : ExecutorReply) → IsLegal (After h (event.Run run at) r) → is_refusal r ≡ false → is_among run.log (held (accepted h)) ≡ false }
    ensures once { (h : History) (number : ℕ) → times (λ (x : RunItem). number == x.number) (given (accepted h)) ≤ 1 }
    ensures kept { (h : History) (e : ExecutorEvent) (r : ExecutorReply) (p : CallbackItem → Bool) → times p (kept_items (After h e r)) + times p (acknowledged h e) ≡ times p (kept_items h) + times p (items_of (gives h e)) }
{}

/// The item of a run tells the first result that an entry gives it, at the entry that gives it and ever after, and a
/// run without an item has no result. The items of a batch are those of accepted runs of their logs.
pub fn law_results()
    ensures at_once { (h : History) (e : ExecutorEvent) (r : ExecutorReply) → IsLegal h → Each (λ (x : RunItem). result_of (After (accepted h) e r) x.number ≡ Some (result_in x.item)) (gives (accepted h) e) }
    ensures told { (h : History) (number : ℕ) → IsLegal h → result_of (accepted h) number ≡ result_told (find (λ (x : RunItem). number == x.number) (given (accepted h))) }
    ensures batch { (h : History) (e : ExecutorEvent) → BeganEmpty h → Each (IsOfRun (accepted h)) (batch_told (reply_of h e)) }
{}

/// The queue is the runs that were accepted and have neither Poll nor result, each once, in order of acceptance and
/// as it was accepted.
pub fn law_queue()
    ensures waits { (h : History) (number : ℕ) → IsLegal h → times (λ (q : Queued). number == q.run.number) (queued (accepted h)) ≡ (if waits (accepted h) number then 1 else 0) }
    ensures order { (h : History) → InOrder (queued h) }
    ensures are { (h : History) → Each (IsAccepted h) (queued h) }
{}

/// At most one run of a job runs; and those that run are the runs that have their Poll, were not ended and have no
/// result.
pub fn law_lanes()
    ensures one { (h : History) (job : ℕ) → times (is_running_of job) (on_runners h) ≤ 1 }
    ensures runs { (h : History) (number : ℕ) → IsLegal h → times (λ (w : Working). number == w.number && is_running w.run) (on_runners (accepted h)) ≡ (if runs (accepted h) number then 1 else 0) }
{}

/// Entries behind a history, and the one at a place.
pub fn law_places()
    ensures last { (h : History) (entries : List Entry) (entry : Entry) → after_all h (entries ++ entry ∷ []) ≡ After (after_all h entries) entry.event entry.reply }
    ensures count { (h : History) (entries : List Entry) → places (after_all h entries) ≡ places h + length entries }
    ensures next { (h : History) (place : ℕ) (entry : Entry) → entry_at h place ≡ Some entry → before h (place + 1) ≡ After (before h place) entry.event entry.reply }
{}

/// The held ids and the known logs are those that the entries say of each log.
pub fn law_kept()
    ensures held { (log : ℕ) (h : History) → is_among log (held h) ≡ is_held log h }
    ensures known { (log : ℕ) (h : History) → known_of log (known h) ≡ known_at log h }
{}
