//! What holds of a store of which one block was read, or to which one was written.

ghost use Rattle.std.specs.Prelude.{◌≡◌, ℕ, Bool, None, Option, Result, List, IfErr, IsTrue};
ghost use Rattle.std.specs.List.{All};
ghost use Rattle.vt_base.specs.declared.score.Score.{Score};
ghost use Rattle.vt_base.specs.declared.why.Why.{Why};
ghost use Rattle.vt_handler.specs.Serving.{tells_failure};
ghost use Rattle.vt_conf.specs.declared.conf.Conf.{Conf};
ghost use Rattle.vt_core.specs.Core.{CoreState, stops_of};
ghost use Rattle.vt_core.specs.Files.{PerDevice};
ghost use Rattle.vt_core.specs.Mounting.{IsLogOf};
ghost use Rattle.vt_core.specs.Sound.{IsSound};
ghost use Rattle.vt_model.specs.History.{Block, History};
ghost use Rattle.vt_model.specs.Places.{Setup};
ghost use Rattle.vt_open.specs.Names.{AreUnder};
ghost use Rattle.vt_part.specs.Table.{Table};
ghost use Rattle.vt_partitions.specs.Parts.{Standing};
ghost use Rattle.vt_use.specs.Causes.{FailsFor};
ghost use Rattle.vt_use.specs.Stores.{MakesRun};
ghost use Rattle.vt_requests.specs.Answers.{KeepsAll};
ghost use Rattle.vt_tree.specs.declared.error.BlockErr.{BlockErr};
ghost use Rattle.vt_use.specs.Uses.{Uses};
ghost use Rattle.vt_use.specs.Blocks.{KeepsBlock, ReadsBlock, ReadsByJob, ReadsTrue, WritesBlock};
ghost use Rattle.vt_use.specs.Blocks.{WritesByJob, own_answer, closed_behind};
ghost use Rattle.vt_use.specs.StoredBlocks.{ReadsStore, WritesStore};

use crate::laws::{stores_are_used, uses_leave};
use vt_disk::Disk;

/// Both are runs of events, so all holds of them that holds of runs: at each moment whatever a crash
/// leaves of all devices, taken together, stands for a prefix of the history with every durable
/// block. What the store was mounted with stays.
pub fn blocks_are_runs<D: Disk>()
    ensures read { (score : List ℕ → List ℕ) (kind : ℕ) (s : List ℕ)
        (result : Result (List ℕ) Why) (old new : CoreState D)
        → ReadsBlock score D.Disk kind s result old new
        → MakesRun score D.Disk old new × KeepsAll D.Disk old new }
    ensures written { (score : List ℕ → List ℕ) (now kind : ℕ) (bytes : List ℕ)
        (result : Result Score Why) (old new : CoreState D)
        → WritesBlock score D.Disk now kind bytes result old new
        → MakesRun score D.Disk old new × KeepsAll D.Disk old new }
{}

/// Where no part had stopped before, a failure that is told has its cause, whatever the devices
/// hold: a device counted a failed call, two values differ, or memory was wanting.
pub fn blocks_have_causes<D: Disk>()
    ensures read { (score : List ℕ → List ℕ) (kind : ℕ) (s : List ℕ)
        (result : Result (List ℕ) Why) (old new : CoreState D)
        → ReadsBlock score D.Disk kind s result old new
        → All (λ stop. stop ≡ None) (stops_of old)
        → IfErr result (λ why. tells_failure why ≡ Bool.true → FailsFor D.Disk why old new) }
    ensures written { (score : List ℕ → List ℕ) (now kind : ℕ) (bytes : List ℕ)
        (result : Result Score Why) (old new : CoreState D)
        → WritesBlock score D.Disk now kind bytes result old new
        → All (λ stop. stop ≡ None) (stops_of old)
        → IfErr result (λ why. tells_failure why ≡ Bool.true → FailsFor D.Disk why old new) }
{}

/// What is read of a store whose devices are sound for a history is true of it.
pub fn blocks_are_read<D: Disk>()
    ensures { (score : List ℕ → List ℕ) (kind : ℕ) (s : List ℕ)
        (result : Result (List ℕ) Why) (h : History) (old new : CoreState D) → IsTrue D.tells
        → IsSound score D.Disk old h → ReadsBlock score D.Disk kind s result old new
        → ReadsTrue score D.Disk kind s result h old new }
{
    uses_leave::<D>();
}

/// What is written to such a store stands in it, whatever calls failed.
pub fn blocks_are_kept<D: Disk>()
    ensures { (score : List ℕ → List ℕ) (now kind : ℕ) (bytes : List ℕ)
        (result : Result Score Why) (h : History) (old new : CoreState D) → IsTrue D.tells
        → IsSound score D.Disk old h → WritesBlock score D.Disk now kind bytes result old new
        → KeepsBlock score D.Disk kind bytes result h old new }
{
    uses_leave::<D>();
}

/// What a job reads of the store of a configuration is true of the history that its partitions read
/// as, where every combination of their images stands for a prefix of one legal history; and it stays.
pub fn stores_are_read<D: Disk>()
    ensures { (score : List ℕ → List ℕ) (tells : Bool) (conf : Conf) (kind : ℕ) (s : List ℕ)
        (output : Result (List ℕ) BlockErr) (said : Option Why) (added : ℕ)
        (closed : Result (Unit {0}) Why) (old new : List ℕ → Standing D) (tables : List Table)
        (devices : PerDevice D) (c : Setup) (h g : History) (base : ℕ) → IsTrue tells
        → IsTrue D.tells
        → Uses score D.Disk (IsTrue tells) conf
        (ReadsByJob score D.Disk kind s output said added closed) old new
        → AreUnder old conf devices → IsLogOf score D.Disk tables devices c h g base
        → ReadsStore score D.Disk conf kind s (own_answer output said) new tables
        (record c { base = base }) g }
{
    stores_are_used::<D>();
}

/// What a job writes to such a store stands in it, whatever calls failed.
pub fn stores_are_written<D: Disk>()
    ensures { (score : List ℕ → List ℕ) (tells : Bool) (conf : Conf) (now : ℕ) (b : Block)
        (output : Result Score BlockErr) (said : Option Why) (added : ℕ)
        (closed : Result (Unit {0}) Why) (old new : List ℕ → Standing D) (tables : List Table)
        (devices : PerDevice D) (c : Setup) (h g : History) (base : ℕ) → IsTrue tells
        → IsTrue D.tells
        → Uses score D.Disk (IsTrue tells) conf
        (WritesByJob score D.Disk now b output said added closed) old new
        → AreUnder old conf devices → IsLogOf score D.Disk tables devices c h g base
        → WritesStore score D.Disk conf b.kind b.bytes (closed_behind (own_answer output said) closed)
        new tables (record c { base = base }) g }
{
    stores_are_used::<D>();
}
