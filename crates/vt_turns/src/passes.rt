//! Passes that are split and joined.

ghost use Rattle.std.specs.Prelude.{◌≡◌, ◌<◌};
ghost use Rattle.vt_turns.specs.Views.{view, HoldsNone, less_one, split_off, noted, joined_views, KnowsAll};
ghost use Rattle.vt_turns.specs.Calls.{IsPassOf};

use crate::held::Held;
use crate::shared::Turns;
use crate::steps::{JoinsPasses, NotesPass, SplitsPass};
use crate::view::Pass;

impl<P: Held<B>, B> Turns<P, B> {
    /// A pass for another worker, which gets one of this pass's shares and knows what this pass
    /// knows.
    pub fn split(&self, pass: &mut Pass<P, B>) -> Pass<P, B>
        requires own { IsPassOf self.now pass.old }
        requires two { 1 < (view pass.old).share }
        ensures own { IsPassOf self.now pass.new }
        ensures view { view pass.new ≡ less_one (view pass.old) }
        ensures new { IsPassOf self.now result × (view result ≡ split_off (view pass.old)) }
    {
        self.table.shared.split_seat::<SplitsPass>(pass)
    }

    /// What the pass knows, without a share, for another pass to join.
    pub fn note(&self, pass: &mut Pass<P, B>) -> Pass<P, B>
        requires own { IsPassOf self.now pass.old }
        ensures own { IsPassOf self.now pass.new }
        ensures view { view pass.new ≡ view pass.old }
        ensures new { IsPassOf self.now result × (view result ≡ noted (view pass.old)) }
    {
        self.table.shared.split_seat::<NotesPass>(pass)
    }

    /// Takes over what another pass knows, added and has. A load of the front behind it shows what
    /// the other one had seen.
    pub fn join(&self, pass: &mut Pass<P, B>, other: Pass<P, B>)
        requires own { IsPassOf self.now pass.old }
        requires share { 0 < (view pass.old).share }
        requires other { IsPassOf self.now other }
        requires none_held { HoldsNone (view other) }
        ensures own { IsPassOf self.now pass.new }
        ensures view { view pass.new ≡ joined_views (view pass.old) (view other) }
        ensures knows { KnowsAll (view pass.old) (view pass.new) }
    {
        self.table.shared.join_seat::<JoinsPasses>(pass, other);
    }
}
