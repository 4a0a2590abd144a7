//! What a run tells, word by word and status by status.

ghost use Rattle.sha1.specs.Sha1.{sha1};
ghost use Rattle.std.specs.Prelude.{◌≡◌, ◌≢◌, ◌⊎◌, ◌++◌, ◌&&◌, ℕ, List, [], ◌∷◌, IsTrue, Option, Err, Result, codes};
ghost use Rattle.vt_base.specs.Faults.{HasRisen};
ghost use Rattle.vt_cli.specs.declared.command.Command.{Command};
ghost use Rattle.vt_base.specs.Protocol.{read, write};
ghost use Rattle.vt_base.specs.declared.TheConstants.{MAX_BLOCK};
ghost use Rattle.vt_cli.specs.declared.command.Command.TheVariants.{Session, Read, Write};
ghost use Rattle.vt_cli.specs.declared.asked.Asked.TheVariants.{Do};
ghost use Rattle.vt_cli.specs.Words.{Asks, AreFaulty, session_words};
ghost use Rattle.run_base.specs.declared.error.CommandError.TheVariants.{NoMemory};
ghost use Rattle.run_base.specs.Change.{StreamChange, DialerChange, FoldersChange, PartsChange, Attempts};
ghost use Rattle.run_sessions.specs.SessionConf.{KeepsConf, ServesConf};
ghost use Rattle.run_base.specs.Unopened.{TellsUnopened};
ghost use Rattle.vt_conf.specs.declared.conf.Conf.{Conf};
ghost use Rattle.vt_core.specs.Files.{PerDevice};
ghost use Rattle.vt_core.specs.Mounting.{IsLogOf, LeavesStanding};
ghost use Rattle.vt_model.specs.Answer.{answer};
ghost use Rattle.vt_model.specs.History.{History};
ghost use Rattle.vt_model.specs.Places.{Setup};
ghost use Rattle.vt_open.specs.Names.{AreUnder};
ghost use Rattle.vt_part.specs.Table.{Table};
ghost use Rattle.vt_use.specs.StoredBlocks.{ReadsStore, WritesStore};
ghost use Rattle.vt_use.specs.PlaceAnswers.{answer_at};
ghost use Rattle.vt_use.specs.declared.used_at.StoreAt.TheVariants as at;
ghost use Rattle.vt_commands.specs.Answers.{TellsReplyOrMemory, WhereOpened, WhereStored};
ghost use Rattle.run_base.specs.Blocks.{SaysNoType, SaysType};
ghost use Rattle.run_sessions.specs.Read.{PrintsAt, SaysBlock, SaysNoBlock};
ghost use Rattle.run_sessions.specs.Write.{GivesTo};
ghost use Rattle.run_archives.specs.Vac.{StoresFolder};
ghost use Rattle.vac_store.specs.declared.outcome.ArchiveError.{ArchiveError};
ghost use Rattle.vac_store.specs.declared.outcome.ArchivedAt.{ArchivedAt};
ghost use Rattle.vac_store.specs.Stored.{KeepsStored};
ghost use Rattle.run_base.specs.Formatting.{RefusesWord};
ghost use Rattle.run_base.specs.Errors.{CommandOutcome, HaveFailed, PartHasFailed, HasLinkFailed, status_of, line};
ghost use Rattle.run_base.specs.Places.{EndsIdle, NamesFile, in_memory};
ghost use Rattle.vt_commands.specs.HandedIn.{IsWellHandedIn, NoneFails};
ghost use Rattle.vt_commands.specs.Run.{Did, DoesCommand, Ran};
ghost use Rattle.vt_commands.specs.Seen.{RunTells, seen_of};
ghost use Rattle.vt_commands.specs.Work.{IsIdle, Work};
ghost use Rattle.run_base.specs.declared.host.Outside.{Outside};
ghost use Rattle.run_base.specs.Served.{InputEndsWell};

use vac_store::stores_keep_archives;
use vt_conf::laws::configurations_have_one_meaning;
use vt_dial::Dialer;
use vt_open::{devices_have_names, opened_stores_recall, refused_stores_stand, shapes_are_kept};
use vt_out::{Files, Folders, Sink, Source};
use vt_partitions::Parts;
use vt_use::{
    local_refusals_have_causes, sessions_end_well, sessions_leave_all, sound_stores_need_memory,
    stores_are_read, stores_are_written,
};

/// What follows from `did`, the clause of `run`, about each status.
pub fn did_tells<R: Source, K: Sink, F: Sink, I: Files, P: Parts, N: Dialer>()
    // Words that ask for nothing that the program knows do nothing: nothing is read or handed out,
    // and nothing is written but on the fault sink, a line.
    ensures bad_words { (score : List ℕ → List ℕ) (words : List (List ℕ)) (status : ℕ)
        (work : Work R K I P P.Disk N N.Link) (complaint : StreamChange F)
        → Did P.Disk.Disk N.Link.Link score words status work complaint → AreFaulty words
        → (status ≡ 1) ⊎ (status ≡ 8) }
    ensures idle { (score : List ℕ → List ℕ) (words : List (List ℕ)) (status : ℕ)
        (work : Work R K I P P.Disk N N.Link) (complaint : StreamChange F)
        → Did P.Disk.Disk N.Link.Link score words status work complaint → AreFaulty words → IsIdle work }
    ensures complained { (score : List ℕ → List ℕ) (words : List (List ℕ)) (status : ℕ)
        (work : Work R K I P P.Disk N N.Link) (complaint : StreamChange F)
        → Did P.Disk.Disk N.Link.Link score words status work complaint → status ≡ 1
        → (preface : List ℕ)
        × Attempts complaint (preface ++ line (codes "bad command line" ∷ [])) }

    // Words that ask for a command do it, and its outcome gives the status, unless memory runs out
    // before anything is done. Status 1 is told of none.
    ensures command { (score : List ℕ → List ℕ) (words : List (List ℕ)) (status : ℕ)
        (work : Work R K I P P.Disk N N.Link) (complaint : StreamChange F)
        → Did P.Disk.Disk N.Link.Link score words status work complaint → (command : Command)
        → Asks words (Do command) → (outcome : CommandOutcome) × (status ≡ status_of outcome)
        × (DoesCommand P.Disk.Disk N.Link.Link score command outcome work
        ⊎ EndsIdle (Err NoMemory) outcome (IsIdle work)) }
    ensures good_words { (score : List ℕ → List ℕ) (words : List (List ℕ)) (status : ℕ)
        (work : Work R K I P P.Disk N N.Link) (complaint : StreamChange F)
        → Did P.Disk.Disk N.Link.Link score words status work complaint → (command : Command)
        → Asks words (Do command) → status ≢ 1 }

    // A fault is told only where the count of that stream rose, or that of the files, of the
    // folders, of a disk, of the partitions or of the dialer, or a link that was made counts one.
    ensures disk_fault { (score : List ℕ → List ℕ) (words : List (List ℕ)) (status : ℕ)
        (work : Work R K I P P.Disk N N.Link) (complaint : StreamChange F)
        → Did P.Disk.Disk N.Link.Link score words status work complaint → status ≡ 4
        → HasRisen work.parts.faults work.parts.faults' ⊎ PartHasFailed P.Disk.Disk work.parts }
    ensures read_fault { (score : List ℕ → List ℕ) (words : List (List ℕ)) (status : ℕ)
        (work : Work R K I P P.Disk N N.Link) (complaint : StreamChange F)
        → Did P.Disk.Disk N.Link.Link score words status work complaint → status ≡ 6
        → HasRisen work.source.faults work.source.faults'
        ⊎ HasRisen work.files.faults work.files.faults'
        ⊎ HaveFailed work.folders.faults work.folders.faults'
        ⊎ HasRisen work.dialer.faults work.dialer.faults'
        ⊎ HasLinkFailed work.dialer.read_faults work.dialer }
    ensures write_fault { (score : List ℕ → List ℕ) (words : List (List ℕ)) (status : ℕ)
        (work : Work R K I P P.Disk N N.Link) (complaint : StreamChange F)
        → Did P.Disk.Disk N.Link.Link score words status work complaint → status ≡ 7
        → HasRisen work.sink.faults work.sink.faults'
        ⊎ HasLinkFailed work.dialer.write_faults work.dialer }

    // The input of a session that ends well, without a fault of the streams, is answered to its
    // end, unless memory runs out.
    ensures complete { (score : List ℕ → List ℕ) (words : List (List ℕ)) (status : ℕ)
        (work : Work R K I P P.Disk N N.Link) (complaint : StreamChange F)
        → Did P.Disk.Disk N.Link.Link score words status work complaint → words ≡ session_words
        → IsTrue work.source.tells → IsTrue work.sink.tells → InputEndsWell work.source.old
        → ¬ HasRisen work.source.faults work.source.faults'
        → ¬ HasRisen work.sink.faults work.sink.faults'
        → (status ≡ 0) ⊎ (status ≡ 8) }
{}

/// What follows from `did`, the clause of `run`, of the bytes that what is lent tells: of those that came in and
/// went out, of what stands under names, and of what became of a link.
pub fn runs_are_seen<R: Source, K: Sink, F: Sink, I: Files, P: Parts, N: Dialer, G: Folders, C, T>()
    ensures { (words : List (List ℕ)) (status : ℕ) (before after : Outside R K F I P N G C T)
        (holds : List ℕ → Option (List ℕ))
        → Ran R.Source K.Sink F.Sink I.Files P.Parts G.Folders N.Dialer P.Disk.Disk N.Link.Link sha1
        words status before after
        → ((name : List ℕ) → IsTrue I.tells → I.content before.files name ≡ holds name)
        → RunTells N.Link.Link words status (seen_of R.Source K.Sink F.Sink I.Files N.Dialer holds
        before after) }
{
    did_tells::<R, K, F, I, P, N>();
}

/// What a session over the store of a configuration promises, where all that is handed in tells what
/// it holds, and every combination of the partitions' images stands for a prefix of one legal
/// history. Where the store isn't opened, whatever call failed, a crash loses nothing of it.
pub fn sessions_keep_the_store<R: Source, K: Sink, P: Parts>()
    ensures served { (score : List ℕ → List ℕ) (conf : Conf) (outcome : CommandOutcome)
        (source : StreamChange R) (sink : StreamChange K) (parts : PartsChange P P.Disk)
        (tables : List Table)
        (devices : PerDevice P.Disk) (c : Setup) (h g : History) (base : ℕ)
        (x : ServesConf score P.Disk.Disk conf outcome source sink parts) → IsTrue parts.tells
        → IsTrue P.Disk.tells → IsTrue (source.tells && sink.tells)
        → AreUnder parts.old conf devices → IsLogOf score P.Disk.Disk tables devices c h g base
        → KeepsConf score P.Disk.Disk conf x.serves.end x.serves.input x.serves.output parts.new
        tables devices (record c { base = base }) g }
    ensures refused { (score : List ℕ → List ℕ) (file : List ℕ) (conf : Conf)
        (outcome : CommandOutcome) (source : StreamChange R) (sink : StreamChange K)
        (parts : PartsChange P P.Disk)
        (tables : List Table) (devices back : PerDevice P.Disk)
        → TellsUnopened score P.Disk.Disk file conf outcome source sink parts → IsTrue parts.tells
        → IsTrue P.Disk.tells → AreUnder parts.old conf devices → AreUnder parts.new conf back
        → LeavesStanding score P.Disk.Disk tables devices back }
{
    opened_stores_recall::<P::Disk>();
    refused_stores_stand::<P::Disk>();
    devices_have_names::<P::Disk>();
    shapes_are_kept::<P::Disk>();
    sessions_leave_all::<P::Disk>();
    sessions_end_well::<P::Disk>();
}

/// Input that ends well is answered to its end over the store of a configuration that is accepted,
/// unless memory runs out, where no call fails.
pub fn sessions_are_answered<R: Source, K: Sink, F: Sink, I: Files, P: Parts, N: Dialer>()
    ensures { (score : List ℕ → List ℕ) (words : List (List ℕ)) (status : ℕ)
        (work : Work R K I P P.Disk N N.Link) (complaint : StreamChange F) (file : List ℕ)
        → Did P.Disk.Disk N.Link.Link score words status work complaint
        → Asks words (Do (Session file)) → file ≢ in_memory
        → IsWellHandedIn score P.Disk.Disk file work → InputEndsWell work.source.old
        → NoneFails P.Disk.Disk work → (status ≡ 0) ⊎ (status ≡ 8) }
{
    configurations_have_one_meaning();
    opened_stores_recall::<P::Disk>();
    refused_stores_stand::<P::Disk>();
    sound_stores_need_memory::<P::Disk>();
}

/// What one block that is read or written leaves of the store of a configuration, whatever calls
/// failed, where all that is handed in tells what it holds, and every combination of the
/// partitions' images stands for a prefix of one legal history: what is told is true of what the
/// partitions read as, and what a crash leaves stands for that, behind a write perhaps with the
/// block. Where the store isn't opened, a crash loses nothing of it.
pub fn blocks_keep_the_store<K: Sink, P: Parts, N: Dialer>()
    ensures read { (score : List ℕ → List ℕ) (file : List ℕ) (conf : Conf) (kind : ℕ)
        (s : List ℕ) (outcome : CommandOutcome) (sink : StreamChange K)
        (parts : PartsChange P P.Disk) (dialer : DialerChange N N.Link) (tables : List Table)
        (devices : PerDevice P.Disk) (c : Setup) (h g : History) (base : ℕ)
        (x : PrintsAt score P.Disk.Disk N.Link.Link file (at.Conf conf) s kind outcome parts dialer
        sink) → IsTrue parts.tells → IsTrue P.Disk.tells
        → AreUnder parts.old conf devices → IsLogOf score P.Disk.Disk tables devices c h g base
        → WhereOpened (λ result. ReadsStore score P.Disk.Disk conf kind s result parts.new tables
        (record c { base = base }) g) ((back : PerDevice P.Disk) → AreUnder parts.new conf back
        → LeavesStanding score P.Disk.Disk tables devices back) (answer_at x.used) }
    ensures written { (score : List ℕ → List ℕ) (file : List ℕ) (conf : Conf) (now kind : ℕ)
        (bytes : List ℕ) (outcome : CommandOutcome) (sink : StreamChange K)
        (parts : PartsChange P P.Disk) (dialer : DialerChange N N.Link) (tables : List Table)
        (devices : PerDevice P.Disk) (c : Setup) (h g : History) (base : ℕ)
        (x : GivesTo score P.Disk.Disk N.Link.Link file (at.Conf conf) now kind bytes outcome sink
        parts dialer) → IsTrue parts.tells → IsTrue P.Disk.tells
        → AreUnder parts.old conf devices → IsLogOf score P.Disk.Disk tables devices c h g base
        → WhereOpened (λ result. WritesStore score P.Disk.Disk conf kind bytes result parts.new
        tables (record c { base = base }) g) ((back : PerDevice P.Disk)
        → AreUnder parts.new conf back → LeavesStanding score P.Disk.Disk tables devices back)
        (answer_at x.used) }
{
    refused_stores_stand::<P::Disk>();
    stores_are_read::<P::Disk>();
    stores_are_written::<P::Disk>();
}

/// Where no call fails, `read` and `write` over the store of a configuration that is accepted tell
/// the reply of a write-once store that holds what the partitions do, unless memory runs out.
pub fn blocks_are_answered<R: Source, K: Sink, F: Sink, I: Files, P: Parts, N: Dialer>()
    ensures read { (score : List ℕ → List ℕ) (words : List (List ℕ)) (status : ℕ)
        (work : Work R K I P P.Disk N N.Link) (complaint : StreamChange F)
        (file score_word type_word : List ℕ)
        (did : Did P.Disk.Disk N.Link.Link score words status work complaint)
        → Asks words (Do (Read file score_word type_word)) → NamesFile file
        → (it : IsWellHandedIn score P.Disk.Disk file work) → NoneFails P.Disk.Disk work
        → RefusesWord (SaysNoBlock score_word type_word) did.outcome (IsIdle work)
        ⊎ (did.outcome ≡ Err NoMemory)
        ⊎ ((s : List ℕ) × (kind : ℕ) × SaysBlock score_word type_word s kind
        × TellsReplyOrMemory (answer score (record it.c { base = it.base }) it.g
        (read s kind MAX_BLOCK)).reply did.outcome work.sink) }
    ensures written { (score : List ℕ → List ℕ) (words : List (List ℕ)) (status : ℕ)
        (work : Work R K I P P.Disk N N.Link) (complaint : StreamChange F) (file type_word : List ℕ)
        (did : Did P.Disk.Disk N.Link.Link score words status work complaint)
        → Asks words (Do (Write file type_word)) → NamesFile file
        → (it : IsWellHandedIn score P.Disk.Disk file work) → NoneFails P.Disk.Disk work
        → RefusesWord (SaysNoType type_word) did.outcome (IsIdle work)
        ⊎ (did.outcome ≡ Err NoMemory)
        ⊎ ((kind : ℕ) × SaysType type_word kind
        × TellsReplyOrMemory (answer score (record it.c { base = it.base }) it.g
        (write kind work.source.old)).reply did.outcome work.sink) }
{
    configurations_have_one_meaning();
    refused_stores_stand::<P::Disk>();
    stores_are_read::<P::Disk>();
    stores_are_written::<P::Disk>();
    local_refusals_have_causes::<P::Disk>();
}

/// What a folder that is archived leaves of the store of a configuration, whatever calls failed,
/// where all that is handed in tells what it holds, and every combination of the partitions' images
/// stands for a prefix of one legal history: what a crash leaves stands for that, behind it for the
/// first of the blocks that are put for the folder's archive, and where a score is told for all of
/// them. Where the store isn't opened, a crash loses nothing of it.
pub fn archives_keep_the_store<P: Parts, N: Dialer>()
    ensures { (score : List ℕ → List ℕ) (now : ℕ) (name : List ℕ) (conf : Conf) (bsize : ℕ)
        (result : Result ArchivedAt ArchiveError) (folders : FoldersChange)
        (parts : PartsChange P P.Disk) (dialer : DialerChange N N.Link) (tables : List Table)
        (devices : PerDevice P.Disk) (c : Setup) (h g : History) (base : ℕ)
        (x : StoresFolder score P.Disk.Disk N.Link.Link now name (at.Conf conf) bsize result folders
        parts dialer)
        → IsTrue parts.tells → IsTrue P.Disk.tells → AreUnder parts.old conf devices
        → IsLogOf score P.Disk.Disk tables devices c h g base
        → WhereStored (KeepsStored score P.Disk.Disk conf bsize x.folder result
        parts.new tables (record c { base = base }) g) ((back : PerDevice P.Disk)
        → AreUnder parts.new conf back → LeavesStanding score P.Disk.Disk tables devices back)
        result }
{
    refused_stores_stand::<P::Disk>();
    stores_keep_archives::<P::Disk>();
}
