//! Works, which are done once, beside the caller or in its place.

/// Something to be done once. Its meaning says what it may give.
pub trait Work: Drop + Sized {
    /// What it gives.
    type Done: Drop;

    // What the work may give.
    ghost may_give: { Self → Self.Done → Type 0 };

    /// Does it.
    fn run(self) -> Self::Done
        ensures { may_give self result };
}
