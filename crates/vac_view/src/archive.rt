//! Serving an archive of a store of blocks.

ghost use Rattle.std.specs.Prelude.{◌≡◌, OnErr};
ghost use Rattle.vac_view.specs.Viewing.{ViewsArchive, passed};

use nine_view::{Served, View, serve_nine};
use std::alloc::Global;
use vac_read::{Archive, VacBad};
use vt_base::Score;
use vt_out::Link;
use vt_tree::Blocks;

/// Opens the archive whose root has this score, and serves it to a client over a link, as a tree of
/// files that nobody can change, until the connection ends (vacfs(4)). Where the archive can't be
/// opened, nothing is taken or put.
pub fn view_archive<B: Blocks, L: Link>(
    alloc: Global,
    blocks: &mut B,
    score: &Score,
    link: &mut L,
) -> Result<Served, VacBad>
    ensures views { ViewsArchive B.does B.holds B.score_of score.now.0
        (passed L.Link link.old link.new) result blocks.old blocks.new }
    ensures untouched { OnErr result (link.new ≡ link.old) }
{
    let archive = Archive::at(alloc, blocks, score)?;
    let mut view = View::new(alloc, archive)?;
    Ok(serve_nine(alloc, &mut view, blocks, link))
}
