//! The heads of sections whose index is rebuilt.

ghost use Rattle.std.specs.Prelude.{◌≡◌, ◌+◌, ◌^◌, ◌<◌, ◌≤◌, All, IsTrue, IfErr, OnOk, OnErr, map, sum};
ghost use Rattle.vt_base.specs.Faults.{CountsFault};
ghost use Rattle.vt_isect.specs.Faults.{is_section_fault};
ghost use Rattle.vt_isect.specs.Section.{IsAtRest};
ghost use Rattle.vt_log.specs.Faults.{CountsFaults};
ghost use Rattle.vt_rebuild.specs.Building.{AreBegun, AreHalfBegun, disks_under};
ghost use Rattle.vt_rebuild.specs.Heads.{HasHead, IsSameSection, StopsAtHead};
ghost use Rattle.vt_rebuild.specs.Rebuilt.{IsOpened, counts_of};
ghost use Rattle.vt_rebuild.specs.Walking.{is_rebuild_fault};

use crate::{MAX_BUCKETS, RebuildBad};
use vt_disk::Disk;
use vt_isect::{Head, Section, ShardErr, soundness_is_kept};

/// Changes the head of a section. The change is on the disk when this answers.
pub(crate) fn change_head<D: Disk>(section: &mut Section<D>, head: Head) -> Result<(), ShardErr>
    requires rest { IsAtRest section.old }
    requires count { head.count ≡ section.old.buckets }
    requires numbers { head.first + head.count ≤ 2 ^ 32 }
    ensures changed { OnOk result (HasHead D.Disk head section.old section.new) }
    ensures stops { OnErr result (StopsAtHead D.Disk head section.old section.new) }
    ensures same { IsSameSection D.Disk section.old section.new }
    ensures calls { IsTrue D.tells
        → D.calls section.new.disk ≤ D.calls section.old.disk + 4 }
    ensures refused { IfErr result (λ bad. bad ≡ ShardErr.Fault) }
    ensures faults { CountsFault is_section_fault result
        (D.faults section.old.disk) (D.faults section.new.disk) }
{
    soundness_is_kept::<D>();
    let under_way = section.is_changing();
    prove!(!under_way);
    section.begin_head(head.state, head.first, head.total, head.mark);
    while section.is_changing() {
        section.advance()?;
    }
    Ok(())
}

/// Has the heads of all sections say that they are being built, one behind the other, of so many
/// buckets in all. Nothing is written behind a call that fails.
pub(crate) fn begin_all<D: Disk>(sections: &mut [Section<D>], total: u32) -> Result<(), RebuildBad>
    requires opened { All (IsOpened D.Disk) sections.old }
    requires few { sum (counts_of sections.old) ≤ MAX_BUCKETS }
    ensures begun { OnOk result (AreBegun D.Disk total sections.old sections.new) }
    ensures stops { OnErr result (AreHalfBegun D.Disk total sections.old sections.new) }
    ensures refused { IfErr result (λ bad. bad ≡ RebuildBad.Fault) }
    ensures faults { CountsFaults D.Disk is_rebuild_fault result
        (disks_under sections.old) (disks_under sections.new) }
{
    let mut first = 0;
    for section in sections.iter_mut() {
        // (state 2: the section is being built, and isn't mounted)
        let head = Head {
            state: 2,
            first,
            count: section.buckets(),
            total,
            mark: 0,
        };
        match change_head(section, head) {
            Ok(()) => first += head.count,
            Err(_) => return Err(RebuildBad::Fault),
        }
    }
    Ok(())
}
