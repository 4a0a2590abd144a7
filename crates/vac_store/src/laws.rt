//! What holds of a store into which a folder was archived: one of this process, and a server's. Each law is the
//! contract of a function that does nothing. In each, `folder` is what the folder holds and at which paths its calls
//! may fail, where it tells them, `score` or `score_of` is any function of a block's bytes, `said` what the store said
//! no for first, `added` how many blocks are new, and `closed` how the store's use ended.

ghost use Rattle.std.specs.Prelude.{◌≡◌, ◌≤◌, ℕ, Bool, IsTrue, List, Ok, Err, Option, Result, length};
ghost use Rattle.vt_base.specs.declared.why.Why.{Why};
ghost use Rattle.vt_client.specs.Clients.{ClientState};
ghost use Rattle.vt_client.specs.Exchanges.{Traffic, traffic_of};
ghost use Rattle.vt_client.specs.Stores.{DoesAsClient};
ghost use Rattle.vt_conf.specs.declared.conf.Conf.{Conf};
ghost use Rattle.vt_core.specs.Core.{CoreState};
ghost use Rattle.vt_core.specs.Files.{PerDevice};
ghost use Rattle.vt_core.specs.Mounting.{IsLogOf};
ghost use Rattle.vt_core.specs.Sound.{IsSound};
ghost use Rattle.vt_model.specs.History.{History};
ghost use Rattle.vt_model.specs.Legal.{IsLegal};
ghost use Rattle.vt_model.specs.Places.{Setup};
ghost use Rattle.vt_open.specs.Names.{AreUnder};
ghost use Rattle.vt_part.specs.Table.{Table};
ghost use Rattle.vt_partitions.specs.Parts.{Standing};
ghost use Rattle.vt_use.specs.Places.{as_ended, as_refused, as_server, holds_nothing};
ghost use Rattle.vt_remote.specs.Remote.{TalksFor};
ghost use Rattle.vt_tree.specs.Calls.{Call};
ghost use Rattle.vac_model.specs.declared.TheConstants.{MIN_BLOCK_SIZE, MAX_BLOCK_SIZE};
ghost use Rattle.vac_write.specs.declared.archived.Archived.{Archived};
ghost use Rattle.vac_write.specs.declared.error.VacErr.{VacErr};
ghost use Rattle.vac_write.specs.Archiving.{FolderRead};
ghost use Rattle.vac_write.specs.Tried.{found};
ghost use Rattle.vac_store.specs.declared.outcome.ArchivedAt.{ArchivedAt};
ghost use Rattle.vac_store.specs.declared.outcome.ArchiveError.TheVariants.{Folder};
ghost use Rattle.vac_store.specs.Sent.{IsSent, IsUnfitFor, all_taken_in};
ghost use Rattle.vac_store.specs.Stored.{KeepsStored, UsesFor};
ghost use Rattle.vac_store.specs.Storing.{ArchivesByJob, ArchivesOrGivesUp, KeepsFolder, came_to, told};
ghost use Rattle.vac_store.specs.Truthful.{AnswersTruly, HoldsArchive};

use vt_disk::Disk;
use vt_open::{opened_stores_recall, shapes_are_kept};
use vt_out::Link;
use vt_remote::{calls_are_exchanged, refusals_have_causes};
use vt_use::uses_leave;

/// What is archived into a store whose devices are sound for a history stands in it, whatever calls
/// failed.
pub fn archives_are_kept<D: Disk>()
    ensures { (score : List ℕ → List ℕ) (now bsize : ℕ) (folder : FolderRead)
        (answer : Result Archived VacErr) (said : Option Why) (added : ℕ)
        (closed : Result (Unit {0}) Why) (h : History) (old new : CoreState D) → IsTrue D.tells
        → IsSound score D.Disk old h
        → ArchivesByJob score D.Disk now bsize folder answer said added closed old new
        → KeepsFolder score D.Disk bsize folder
        (came_to answer (as_refused said) added (as_ended closed)) h old new }
{
    uses_leave::<D>();
}

/// What is archived into the store of a configuration stands in it, where every combination of the
/// images of its partitions stands for a prefix of one legal history, whatever calls failed.
pub fn stores_keep_archives<D: Disk>()
    ensures { (score : List ℕ → List ℕ) (told : Bool) (conf : Conf) (now bsize : ℕ)
        (folder : FolderRead) (answer : Result Archived VacErr) (said : Option Why) (added : ℕ)
        (closed : Result (Unit {0}) Why) (old new : List ℕ → Standing D) (tables : List Table)
        (devices : PerDevice D) (c : Setup) (h g : History) (base : ℕ) → IsTrue told
        → IsTrue D.tells
        → UsesFor score D.Disk (IsTrue told) conf now bsize folder answer said added closed old new
        → AreUnder old conf devices → IsLogOf score D.Disk tables devices c h g base
        → KeepsStored score D.Disk conf bsize folder
        (came_to answer (as_refused said) added (as_ended closed)) new tables
        (record c { base = base }) g }
{
    opened_stores_recall::<D>();
    shapes_are_kept::<D>();
    archives_are_kept::<D>();
}

/// Where an archive was sent over a link that tells its bytes, a write of each block that is put for
/// it went out, in order, and behind them the request to commit; each had its reply before the next
/// one; and nothing else was asked.
pub fn sent_archives_are_exchanged<L: Link>()
    ensures { (score_of : List ℕ → List ℕ) (bsize : ℕ) (folder : FolderRead)
        (archived : Archived) (calls : List Call) (met last : ClientState L) (back : L)
        → IsTrue L.tells → TalksFor L.Link score_of calls met last back
        → ArchivesOrGivesUp (DoesAsClient L.Link score_of) holds_nothing score_of bsize folder
        (Ok archived) calls met last
        → IsSent score_of bsize folder
        (record { archived = archived; blocks = last.sent }) (traffic_of L.Link back) }
{
    calls_are_exchanged::<L>();
}

/// The folder is told as why it wasn't archived at a server only where it is unfit, where the folder
/// itself couldn't be listed, or where memory ran out; and never for what the server said.
pub fn folders_are_unfit<L: Link>()
    ensures { (score_of : List ℕ → List ℕ) (bsize : ℕ) (folder : FolderRead)
        (err given : VacErr) (calls : List Call) (met last : ClientState L) (back : L)
        → TalksFor L.Link score_of calls met last back
        → ArchivesOrGivesUp (DoesAsClient L.Link score_of) holds_nothing score_of bsize folder
        (Err given) calls met last
        → told given (as_server last.refused) ≡ Folder err → IsUnfitFor folder err }
{
    refusals_have_causes::<L>();
}

/// What an archive leaves that was sent to a server which answers truthfully: whatever the server
/// held before, and whatever others add meanwhile, it then holds each block of the archive, whose
/// score stands for the folder.
pub fn truthful_servers_keep_archives()
    ensures { (score_of : List ℕ → List ℕ) (bsize : ℕ) (folder : FolderRead)
        (sent : ArchivedAt) (back : Traffic) (c : Setup) (before after : History)
        → MIN_BLOCK_SIZE ≤ bsize → bsize ≤ MAX_BLOCK_SIZE
        → ((block : List ℕ) → length (score_of block) ≡ 20) → IsLegal score_of c after
        → (it : IsSent score_of bsize folder sent back)
        → AnswersTruly score_of c before (all_taken_in score_of it.all) after
        → HoldsArchive score_of bsize (found it.tried) after }
{
    vac_model::laws::archives_read_back();
}
