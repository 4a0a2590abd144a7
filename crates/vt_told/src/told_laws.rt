//! What tells of calls that fail is, to each clause on the system's calls, what it wraps.
//!
//! So a call of it is just one call of that, with its answer.

ghost use Rattle.std.specs.Prelude.{◌≡◌, ℕ, List};
ghost use Rattle.vt_told.specs.Telling.{told_as_calls, told_calls, told_connector, unlabelled};
ghost use Rattle.vt_told.specs.declared.told.Told.{Told};
ghost use Rattle.vt_told.specs.declared.told.ToldAs.{ToldAs};
ghost use Rattle.vt_told.specs.declared.told_net.ToldNet.{ToldNet};

use crate::teller::Teller;
use crate::told::{Told, ToldAs};
use crate::told_net::ToldNet;
use vt_host::{
    ClockCalls, Connector, FileCalls, FolderCalls, Opener, PieceCalls, ReadCalls, WriteCalls,
};

/// A told opener has opened what is opened by what it wraps, and its names name the same.
pub fn told_openers_open<O: Opener, T: Teller + Copy>()
    ensures opened { (told : Told O T)
        → ⟦<Told<O, T> as Opener>⟧.opened told ≡ O.opened (told_calls told) }
    ensures still { ⟦<Told<O, T> as Opener>⟧.still ≡ O.still }
    ensures holds { (name : List ℕ) → ⟦<Told<O, T> as Opener>⟧.holds name ≡ O.holds name }
{}

/// A told file has had the calls of what it wraps, and holds what that holds.
pub fn told_files_hold<F: FileCalls, T: Teller + Copy>()
    ensures tells { ⟦<ToldAs<F, T> as FileCalls>⟧.tells ≡ F.tells }
    ensures made { (told : ToldAs F T)
        → ⟦<ToldAs<F, T> as FileCalls>⟧.made told ≡ F.made (told_as_calls told) }
    ensures bytes { (told : ToldAs F T)
        → ⟦<ToldAs<F, T> as FileCalls>⟧.bytes told ≡ F.bytes (told_as_calls told) }
    ensures kept { (told : ToldAs F T)
        → ⟦<ToldAs<F, T> as FileCalls>⟧.kept told ≡ F.kept (told_as_calls told) }
    ensures images { (told : ToldAs F T) (c : List ℕ)
        → ⟦<ToldAs<F, T> as FileCalls>⟧.images told c → F.images (told_as_calls told) c }
    ensures all_images { (told : ToldAs F T) (c : List ℕ)
        → F.images (told_as_calls told) c → ⟦<ToldAs<F, T> as FileCalls>⟧.images told c }
{}

/// Told folders have had the calls of what they wrap, and at their paths stands the same.
pub fn told_folders_stand<C: FolderCalls, T: Teller + Copy>()
    ensures tells { ⟦<Told<C, T> as FolderCalls>⟧.tells ≡ C.tells }
    ensures made { (told : Told C T)
        → ⟦<Told<C, T> as FolderCalls>⟧.made told ≡ C.made (told_calls told) }
    ensures still { ⟦<Told<C, T> as FolderCalls>⟧.still ≡ C.still }
    ensures looks { (path : List ℕ)
        → ⟦<Told<C, T> as FolderCalls>⟧.look_at path ≡ C.look_at path }
    ensures names { (path : List ℕ)
        → ⟦<Told<C, T> as FolderCalls>⟧.names_at path ≡ C.names_at path }
{}

/// A told file that is read in pieces has had the calls of what it wraps, and is the file at its path.
pub fn told_pieces_read<F: PieceCalls, T: Teller + Copy>()
    ensures tells { ⟦<ToldAs<F, T> as PieceCalls>⟧.tells ≡ F.tells }
    ensures made { (told : ToldAs F T)
        → ⟦<ToldAs<F, T> as PieceCalls>⟧.made told ≡ F.made (told_as_calls told) }
    ensures still { ⟦<ToldAs<F, T> as PieceCalls>⟧.still ≡ F.still }
    ensures bytes { (path : List ℕ)
        → ⟦<ToldAs<F, T> as PieceCalls>⟧.bytes_at path ≡ F.bytes_at path }
    ensures path { (told : ToldAs F T)
        → ⟦<ToldAs<F, T> as PieceCalls>⟧.path told ≡ F.path (told_as_calls told) }
{}

/// A told stream that is read has had the calls of what it wraps, and the same comes in.
pub fn told_inputs_give<R: ReadCalls, T: Teller + Copy>()
    ensures tells { ⟦<ToldAs<R, T> as ReadCalls>⟧.tells ≡ R.tells }
    ensures made { (told : ToldAs R T)
        → ⟦<ToldAs<R, T> as ReadCalls>⟧.made told ≡ R.made (told_as_calls told) }
    ensures given { (told : ToldAs R T)
        → ⟦<ToldAs<R, T> as ReadCalls>⟧.given told ≡ R.given (told_as_calls told) }
    ensures left { (told : ToldAs R T)
        → ⟦<ToldAs<R, T> as ReadCalls>⟧.left told ≡ R.left (told_as_calls told) }
    ensures remaining { (told : ToldAs R T)
        → ⟦<ToldAs<R, T> as ReadCalls>⟧.remaining told ≡ R.remaining (told_as_calls told) }
{}

/// A told stream that is written has had the calls of what it wraps, and took the same.
pub fn told_outputs_take<W: WriteCalls, T: Teller + Copy>()
    ensures tells { ⟦<ToldAs<W, T> as WriteCalls>⟧.tells ≡ W.tells }
    ensures made { (told : ToldAs W T)
        → ⟦<ToldAs<W, T> as WriteCalls>⟧.made told ≡ W.made (told_as_calls told) }
    ensures went { (told : ToldAs W T)
        → ⟦<ToldAs<W, T> as WriteCalls>⟧.went told ≡ W.went (told_as_calls told) }
    ensures contents { (told : ToldAs W T)
        → ⟦<ToldAs<W, T> as WriteCalls>⟧.contents told ≡ W.contents (told_as_calls told) }
{}

/// What tells of connections has made those of what it wraps, and of the same became the same.
pub fn told_connections_are_made<N: Connector, T: Teller + Copy>()
    ensures tells { ⟦<ToldNet<N, T> as Connector>⟧.tells ≡ N.tells }
    ensures connected { (told : ToldNet N T)
        → ⟦<ToldNet<N, T> as Connector>⟧.connected told ≡ N.connected (told_connector told) }
    ensures dialled { (told : ToldNet N T)
        → unlabelled (⟦<ToldNet<N, T> as Connector>⟧.dialled told)
        ≡ N.dialled (told_connector told) }
{}

/// A told clock answers what it wraps does.
pub fn told_clocks_answer<C: ClockCalls, T: Teller + Copy>()
    ensures tells { ⟦<ToldAs<C, T> as ClockCalls>⟧.tells ≡ C.tells }
    ensures answer { (told : ToldAs C T)
        → ⟦<ToldAs<C, T> as ClockCalls>⟧.answer told ≡ C.answer (told_as_calls told) }
{}
