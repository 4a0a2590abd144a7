//! Serving an archive, as a job for a store of blocks.

use crate::archive::view_archive;
use nine_view::Served;
use std::alloc::Global;
use vac_read::VacBad;
use vt_base::Score;
use vt_out::Link;
use vt_tree::Blocks;
use vt_use::BlockJob;

/// The archive whose root has this score is served to a client over a link.
#[derive(Drop)]
pub struct ViewArchive {
    pub score: Score,
}

impl<L: Link> BlockJob<L> for ViewArchive {
    ghost use Rattle.std.specs.Prelude.{◌≡◌, ⊤, false, OnErr};
    ghost use Rattle.vac_view.specs.Viewing.{ViewsBy, passed};

    type Output = Result<Served, VacBad>;

    ghost fits = { λ it link. ⊤ };

    ghost does = { λ S act holds score_of it output before after calls old new.
        ViewsBy act holds score_of it.score.0 (passed L.Link before after) output calls old new
        × OnErr output (after ≡ before) };

    ghost writes = { λ it. false };

    fn writes(&self) -> bool {
        false
    }

    fn run<B: Blocks>(
        &self,
        alloc: Global,
        blocks: &mut B,
        link: &mut L,
    ) -> Result<Served, VacBad> {
        view_archive(alloc, blocks, &self.score, link)
    }
}
