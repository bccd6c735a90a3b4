//! What a lock keeps: a machine that takes one event after another.
ghost use Rattle.std.specs.Prelude.{◌≡◌, List, [], ◌∷◌, ◌++◌, Bool, IfOk, IfErr};

/// A machine with a history of entries, each an event with its reply. `stands` says for which
/// opening and which entries a machine stands, `legal` which lists of entries an opening allows,
/// and `refuses` which refusals an event may meet after them.
pub trait Machine: Drop {
    type Event;

    type Reply;

    type Refused: Copy;

    type Opening;

    ghost opening: { Self → Self.Opening };

    ghost stands: { Self.Opening → List (Self.Event × Self.Reply) → Self → Type 0 };

    ghost legal: { Self.Opening → List (Self.Event × Self.Reply) → Type 0 };

    ghost refuses: { Self.Opening → List (Self.Event × Self.Reply) → Self.Event → Self.Refused → Type 0 };

    ghost is_want: { Self.Refused → Bool };

    /// Takes the event, which becomes the next entry. Refused, the machine stands for the same.
    fn step(&mut self, event: &Self::Event) -> Result<Self::Reply, Self::Refused>
        ensures done { (o : Self.Opening) (log : List (Self.Event × Self.Reply)) → stands o log self.old → IfOk result (λ r. stands o (log ++ (event.now, r) ∷ []) self.new) }
        ensures refused { (o : Self.Opening) (log : List (Self.Event × Self.Reply)) → stands o log self.old → IfErr result (λ x. stands o log self.new × refuses o log event.now x) };

    /// Whether the refusal is want of memory.
    fn is_memory(refused: &Self::Refused) -> bool
        ensures { result ≡ is_want refused.now };

    // A machine stands for legal lists alone.
    ghost stands_legally: { (o : Self.Opening) (log : List (Self.Event × Self.Reply)) (m : Self) → stands o log m → legal o log };
}
