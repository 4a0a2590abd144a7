//! What rehearsals are.

ghost use Rattle.sha1.specs.Sha1.{sha1};
ghost use Rattle.std.specs.Prelude.{List, ℕ};
ghost use Rattle.vt_core.specs.Crashing.{Act, Lives};
ghost use Rattle.vt_memdisk.specs.declared.mem_disk.MemDisk.{MemDisk};
ghost use Rattle.vt_memdisk.specs.declared.plan.Never.{Never};
ghost use Rattle.vt_rehearse.specs.Memory.{LeavesMemory, memory_disk};
ghost use Rattle.vt_rehearse.specs.Rehearsal.{LooksUpAll, MakesAll};
ghost use Rattle.vt_rehearse.specs.Stage.{StageState};
ghost use Rattle.vt_rehearse.specs.declared.rounds.Round.{Round};

/// The rounds of a rehearsal and the last look-ups are a life of its store: events one after
/// another, and behind each crash what was mounted lives on. By
/// `vt_core::lives_are_lives_of_the_machine` it is one of the machine too.
pub fn rehearsals_are_lives()
    ensures rounds { (rounds : List Round) (old new : StageState (MemDisk Never))
        → MakesAll sha1 memory_disk LeavesMemory rounds old new
        → (acts : List Act) × Lives sha1 memory_disk acts old.core new.core }
    ensures looks { (words : List ℕ) (old new : StageState (MemDisk Never))
        → LooksUpAll sha1 memory_disk words old new
        → (acts : List Act) × Lives sha1 memory_disk acts old.core new.core }
{}
