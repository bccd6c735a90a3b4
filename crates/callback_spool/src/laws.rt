//! What the length of a batch says of the waiting items.
ghost use Rattle.std.specs.Prelude.{◌≡◌, List};
ghost use Rattle.job_values.specs.declared.limits.TheConstants.{BATCH_ITEMS, BATCH_BYTES};
ghost use Rattle.job_values.specs.declared.run.CallbackItem.{CallbackItem};
ghost use Rattle.callback_spool.specs.Batches.{batch_len, IsLongest};

/// A batch is the longest prefix of the waiting items within both limits.
pub fn law_batches()
    ensures { (items : List CallbackItem) → IsLongest items (batch_len items) }
{}

/// The constants that the definitions cite, as numbers.
pub fn law_numbers()
    ensures items { BATCH_ITEMS ≡ 1000 }
    ensures bytes { BATCH_BYTES ≡ 131072 }
{}
