//! What a view of an archive keeps from one message to the next.

ghost use Rattle.std.specs.Prelude.{◌≡◌, ◌+◌, ◌≤◌, None, [], IfOk, unwrap_or};
ghost use Rattle.nine_view.specs.Answers.{most_data};
ghost use Rattle.nine_view.specs.Files.{FitsMessage};
ghost use Rattle.nine_view.specs.Known.{limit};

use crate::MAX_MESSAGE;
use crate::fids::Fids;
use std::alloc::{AllocError, Global};
use std::marker::Model;
use vac_read::{Archive, Kept, LastWay, Node};

/// An archive as a tree of files, and what its client has said so far: the size of messages that
/// is agreed, and the fids that it has set.
#[derive(Drop)]
pub struct View {
    /// The archive's top folder.
    pub(crate) top: Node,
    /// The most bytes of a message; none before one is agreed.
    pub(crate) msize: Option<u32>,
    pub(crate) fids: Fids,
    /// Of the folders in which names were looked for.
    pub(crate) kept: Kept,
    /// Of the last read of a file.
    pub(crate) way: LastWay,
    /// Room for what a folder tells of its files.
    pub(crate) stats: Vec<u8>,
}

impl Model for View {
    ghost use Rattle.std.specs.Prelude.{◌≡◌, length};
    ghost use Rattle.nine_view.specs.Known.{ViewState};

    ghost Value = { ViewState };

    ghost use Rattle.nine_view.specs.Kept.{IsKeptView};

    ghost view = { λ v. record {
      top = v.top;
      msize = v.msize;
      fids = v.fids;
      kept = v.kept;
      way = v.way;
    } };

    ghost invariant = { λ v. (length v.stats.items ≡ 65536)
        × IsKeptView (record {
          top = v.top;
          msize = v.msize;
          fids = v.fids;
          kept = v.kept;
          way = v.way;
        }) };
}

impl View {
    /// No version is agreed, and no fid is set. The buffer's memory is taken here.
    pub fn new(alloc: Global, archive: Archive) -> Result<Self, AllocError>
        requires { FitsMessage archive.top }
        ensures { IfOk result (λ view.
            view ≡ record { top = archive.top; msize = None; fids = []; kept = []; way = [] }) }
    {
        Ok(View {
            top: archive.top,
            msize: None,
            fids: Fids::new(alloc),
            kept: Kept::new(alloc),
            way: LastWay::new(alloc),
            stats: vec![in alloc; 0; MAX_MESSAGE]?,
        })
    }

    /// The most bytes that a message may have now.
    pub fn limit(&self) -> usize
        ensures is { result ≡ limit self.now }
        ensures least { 256 ≤ result }
        ensures most { result ≤ 65536 }
    {
        match self.msize {
            Some(msize) => msize as usize,
            None => MAX_MESSAGE,
        }
    }

    /// The most bytes of data that a message has room for now.
    pub(crate) fn most_data(&self) -> usize
        ensures is { result ≡ most_data self.now }
        ensures fits { result + 24 ≡ limit self.now }
        ensures few { result ≤ 65512 }
    {
        // 24: room for the rest of a message round its data, as Plan 9's IOHDRSZ.
        self.limit() - 24
    }
}
