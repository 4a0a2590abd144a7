//! What is done with a store of blocks, wherever it is.

ghost use Rattle.std.specs.Prelude.{◌≡◌, ℕ, Bool, false, List};
ghost use Rattle.std.specs.List.{AllByRecursion};
ghost use Rattle.vt_tree.specs.Calls.{Call, IsGet};
ghost use Rattle.vt_tree.specs.Making.{Makes};
ghost use Rattle.vt_tree.specs.Maps.{Maps};

use crate::job::Job;
use std::alloc::Global;
use vt_base::{Scorer, Why};
use vt_blocks::Local;
use vt_handler::Store;
use vt_tree::Blocks;

/// What is done with a store of blocks: one of this process, or that of a server. It is lent an `X`
/// beside it.
pub trait BlockJob<X> {
    /// What comes of it.
    type Output;

    /// When it may be done.
    ghost fits: { Self → X → Type 0 };

    /// How what comes of it, and what becomes of that beside it, follow from its calls. `act`,
    /// `holds` and `score_of` are the store's members, and `calls` are all that it makes of it.
    ghost does: { (S : Type 0) → (act : S → Call → S → Type 0) → (holds : S → Maps → Type 0)
        → (score_of : List ℕ → List ℕ) → Self → Self.Output → (beside beside' : X)
        → (calls : List Call) → (old new : S) → Type 0 };

    /// It may put blocks.
    ghost writes: { Self → Bool };

    /// Whether it may put blocks. Where it doesn't, it only asks for some.
    fn writes(&self) -> bool
        ensures { result ≡ writes self.now };

    /// Does it. It calls the store, and does nothing else with it.
    fn run<B: Blocks>(&self, alloc: Global, blocks: &mut B, beside: &mut X) -> Self::Output
        requires { fits self.now beside.old }
        ensures { (calls : List Call) × Makes B.does blocks.old calls blocks.new
            × (writes self.now ≡ false → AllByRecursion IsGet calls)
            × does B B.does B.holds B.score_of self.now result beside.old beside.new calls
            blocks.old blocks.new };
}

/// Such a job, done with a store of this process, of which this is the scorer. Beside what comes of
/// it it is told why the store said no to the first operation that it said no to, if it did.
#[derive(Drop)]
pub struct LocalJob<'a, J, S> {
    pub job: J,
    pub scorer: &'a S,
}

impl<'a, X, J: BlockJob<X>, S: Scorer> Job<X> for LocalJob<'a, J, S> {
    ghost use Rattle.vt_blocks.specs.Local.{DoesLocal, HoldsLocal};
    ghost use Rattle.vt_use.specs.LocalJobs.{DoesOnStore};

    type Output = (J::Output, Option<Why>);

    ghost fits = { λ T store it beside. ((bytes : List ℕ) → S.score_of bytes ≡ store.score_of bytes)
        × J.fits it.job beside };

    ghost does = { λ T store it output beside beside' exchanges old new.
        DoesOnStore store (λ calls l l'. J.does _ (DoesLocal store) (HoldsLocal store S.score_of)
        S.score_of it.job output.0 beside beside' calls l l') output.1 exchanges old new };

    ghost writes = { λ it. J.writes it.job };

    /// Whether the job on blocks writes.
    fn writes(&self) -> bool {
        self.job.writes()
    }

    /// Does the job with the store as a store of blocks, and tells beside its output why the store
    /// said no first, if it did.
    fn run<T: Store>(
        &self,
        alloc: Global,
        store: T,
        beside: &mut X,
    ) -> ((J::Output, Option<Why>), T) {
        let mut blocks = Local::new(store, self.scorer);
        let output = self.job.run(alloc, &mut blocks, beside);
        let first_refusal = blocks.refused();
        let (store, _) = blocks.into_parts();
        ((output, first_refusal), store)
    }
}
