//! What a part that is at home or held means to the rule.

ghost use Rattle.vt_turns.specs.Meaning.{Meaning, Lawful};

/// The log or a shard of a store, whose blocks are `B`: what its calls change and what the rule
/// reads of it.
pub trait Held<B> {
    /// What is read of a part: its blocks, its durable number, filed numbers, mark, count of faults
    /// and stop, and for which blocks it is sound.
    ghost means: { Meaning Self B };

    /// A sound part stays sound when a block outside its range is added.
    ghost lawful: { Lawful means };
}
