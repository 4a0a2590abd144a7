//! What follows of an archive that was served, each law the contract of a function that does nothing. In each,
//! `score` is that of the archive, `p` what passed over the link, `result` how serving ended, `said` what the store
//! said no for first, and `closed` how its use ended; `score_of` is any function of a block's bytes.

ghost use Rattle.std.specs.Prelude.{◌≡◌, ℕ, Bool, None, Option, Result, List, IfSome, IsTrue};
ghost use Rattle.std.specs.List.{All};
ghost use Rattle.vt_base.specs.declared.why.Why.{Why};
ghost use Rattle.vt_client.specs.Clients.{ClientState};
ghost use Rattle.vt_client.specs.Stores.{DoesAsClient};
ghost use Rattle.vt_conf.specs.declared.conf.Conf.{Conf};
ghost use Rattle.vt_core.specs.Core.{CoreState, stops_of};
ghost use Rattle.vt_core.specs.Files.{PerDevice};
ghost use Rattle.vt_core.specs.Mounting.{IsLogOf};
ghost use Rattle.vt_core.specs.Sound.{IsSound};
ghost use Rattle.vt_model.specs.History.{History, held};
ghost use Rattle.vt_model.specs.Places.{Setup};
ghost use Rattle.vt_open.specs.Names.{AreUnder};
ghost use Rattle.vt_part.specs.Table.{Table};
ghost use Rattle.vt_partitions.specs.Parts.{Standing};
ghost use Rattle.vt_use.specs.Places.{holds_nothing};
ghost use Rattle.vt_remote.specs.Remote.{TalksFor};
ghost use Rattle.vt_tree.specs.Calls.{Call};
ghost use Rattle.vt_tree.specs.Maps.{Maps};
ghost use Rattle.vac_read.specs.declared.error.VacBad.{VacBad};
ghost use Rattle.nine_view.specs.declared.serving.Served.{Served};
ghost use Rattle.vac_view.specs.Items.{FidsAreItems, NamesAreItems, ReadsAreOfFiles};
ghost use Rattle.vac_view.specs.Remote.{FailsOver};
ghost use Rattle.vac_view.specs.Stored.{FailsIn, KeepsStored, ShowsOn, StaysAsRead, UsesFor};
ghost use Rattle.vac_view.specs.Stored.{ViewsByJob};
ghost use Rattle.vac_view.specs.Viewing.{IsShown, Passed, ViewsArchive, ViewsBy, first_bad};

use vt_disk::Disk;
use vt_open::opened_stores_recall;
use vt_out::Link;
use vt_remote::refusals_have_causes;
use vt_tree::Blocks;
use vt_use::{local_refusals_have_causes, readers_leave_all, uses_leave, uses_leave_the_store};

/// By what a store tells that it holds, which it still holds afterwards, the folder at the top is
/// that of the score's archive, and each reply is what the archive has; or the archive couldn't be
/// opened for a cause that is true of it.
pub fn archives_are_shown<B: Blocks>()
    ensures { (score : List ℕ) (p : Passed) (result : Result Served VacBad) (s s' : B) (m : Maps)
        (it : ViewsArchive B.does B.holds B.score_of score p result s s')
        → B.holds s m → B.holds s' m
        × IsShown B.does B.holds B.score_of p s s' m.held score result it }
{}

/// Where the archive is that of a folder, what is shown is that folder: what is found under a name
/// is the folder's item of that name; each fid stands for an item, as the archive keeps it, at the
/// path that led there; and what is replied to a read of a file are the file's bytes.
pub fn shown_folders_are_archived()
    ensures names { NamesAreItems }
    ensures fids { FidsAreItems }
    ensures reads { ReadsAreOfFiles }
{
    vt_tree::laws::one_content();
    vac_meta::laws::one_metadata();
    vac_read::laws::nodes_are_items();
}

/// Where no part had stopped before, the first failure that is told has its cause, whatever the
/// devices hold: a device counted a failed call, or two values differ.
pub fn failures_have_causes<D: Disk>()
    ensures { (score_of : List ℕ → List ℕ) (score : List ℕ) (p : Passed)
        (result : Result Served VacBad) (said : Option Why) (added : ℕ)
        (closed : Result (Unit {0}) Why) (old new : CoreState D)
        → ViewsByJob score_of D.Disk score p result said added closed old new
        → All (λ stop. stop ≡ None) (stops_of old)
        → IfSome (first_bad result) (FailsIn D.Disk old new) }
{
    local_refusals_have_causes::<D>();
}

/// What is shown of a store whose devices are sound for a history is what that has, and it stays.
pub fn views_are_right<D: Disk>()
    ensures { (score_of : List ℕ → List ℕ) (score : List ℕ) (p : Passed)
        (result : Result Served VacBad) (said : Option Why) (added : ℕ)
        (closed : Result (Unit {0}) Why) (h : History) (old new : CoreState D) → IsTrue D.tells
        → IsSound score_of D.Disk old h
        → (it : ViewsByJob score_of D.Disk score p result said added closed old new)
        → ShowsOn (held score_of h) it
        × StaysAsRead score_of D.Disk h old new }
{
    readers_leave_all::<D>();
    uses_leave::<D>();
}

/// What is shown of the store of a configuration is what the history has that its partitions read
/// as, where every combination of their images stands for a prefix of one legal history; and it
/// stays.
pub fn stores_are_viewed<D: Disk>()
    ensures { (score_of : List ℕ → List ℕ) (tells : Bool) (conf : Conf) (score : List ℕ)
        (p : Passed) (result : Result Served VacBad) (said : Option Why) (added : ℕ)
        (closed : Result (Unit {0}) Why) (old new : List ℕ → Standing D)
        (tables : List Table) (devices : PerDevice D) (c : Setup) (h g : History) (base : ℕ)
        → IsTrue tells → IsTrue D.tells
        → (it : UsesFor score_of D.Disk (IsTrue tells) conf score p result said added closed old new)
        → AreUnder old conf devices → IsLogOf score_of D.Disk tables devices c h g base
        → ShowsOn (held score_of g) it.does
        × KeepsStored score_of D.Disk conf new tables (record c { base = base }) g }
{
    opened_stores_recall::<D>();
    uses_leave_the_store::<D>();
    views_are_right::<D>();
}

/// The first failure that is told of a server's archive has its cause, whatever the server sends:
/// the link that came back counts a failed call, or two scores differ.
pub fn remote_failures_have_causes<C: Link>()
    ensures { (score_of : List ℕ → List ℕ) (score : List ℕ) (p : Passed)
        (result : Result Served VacBad) (calls : List Call) (met last : ClientState C) (back : C)
        → TalksFor C.Link score_of calls met last back
        → ViewsBy (DoesAsClient C.Link score_of) holds_nothing score_of score p result calls met last
        → IfSome (first_bad result) (λ bad. FailsOver C.Link bad last.refused back) }
{
    refusals_have_causes::<C>();
}
