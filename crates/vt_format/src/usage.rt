//! Putting index sections to use.

ghost use Rattle.std.specs.Prelude.{◌≡◌, ◌+◌, ◌*◌, ◌^◌, ◌<◌, ◌≤◌, ℕ, List, All, IsTrue, IfErr, IfOk, OnOk, OnErr, Ok, Err, length};
ghost use Rattle.vt_base.specs.Faults.{CountsFault};
ghost use Rattle.vt_format.specs.Usage.{AreUsed, CallsForBuckets, ChangesHead, IsInUse, IsMidway, IsOpened, StopsAtSection, StopsHead, total_buckets, cleared};
ghost use Rattle.vt_isect.specs.Faults.{is_section_fault};
ghost use Rattle.vt_isect.specs.Section.{IsAtRest};
ghost use Rattle.vt_isect.specs.Sound.{DiskHolds, nothing_known};

use crate::MAX_BUCKETS;
use vt_disk::Disk;
use vt_isect::{Section, ShardErr, images_agree, soundness_is_kept};
use vt_out::Progress;

/// Into how many pieces the buckets of a section are cut that are cleared with one sync each.
const PIECES: u32 = 16;

/// Puts these sections to use, one behind the other, and gives the count of their buckets. Where a
/// call fails, it gives the number of that section: those before it are in use, and nothing is
/// written behind it.
pub fn put_all_to_use<D: Disk, G: Progress>(
    sections: &mut [Section<D>],
    progress: &mut G,
) -> Result<u32, usize>
    requires opened { All (IsOpened D.Disk) sections.old }
    requires few { total_buckets sections.old ≤ MAX_BUCKETS }
    ensures used { IfOk result (λ total. AreUsed D.Disk total sections.old sections.new) }
    ensures total { IfOk result (λ total. total ≡ total_buckets sections.old) }
    ensures among { IfErr result (λ number. number < length sections.old) }
    ensures stops { IfErr result
        (λ number. StopsAtSection D.Disk number (total_buckets sections.old)
        sections.old sections.new) }
{
    let total = buckets_in(sections);
    let mut first = 0;
    for (number, section) in sections.iter_mut().enumerate() {
        let buckets = section.buckets();
        match put_to_use(section, first, total, progress) {
            Ok(()) => first += buckets,
            Err(_) => return Err(number),
        }
    }
    Ok(total)
}

/// How many buckets these sections have.
pub(crate) fn buckets_in<D: Disk>(sections: &[Section<D>]) -> u32
    requires { total_buckets sections.now ≤ MAX_BUCKETS }
    ensures { result ≡ total_buckets sections.now }
{
    let mut buckets = 0;
    for section in sections {
        buckets += section.buckets();
    }
    buckets
}

/// Puts a section to use: its buckets are numbered from `first` on, of so many over all sections,
/// and have no entries. Its head says state 2 while they are cleared, and state 1 behind that. It
/// makes no more than two device calls for each bucket, and 24 more. It fails where one of them
/// does.
fn put_to_use<D: Disk, G: Progress>(
    section: &mut Section<D>,
    first: u32,
    total: u32,
    progress: &mut G,
) -> Result<(), ShardErr>
    requires rest { IsAtRest section.old }
    requires numbers { first + section.old.buckets ≤ 2 ^ 32 }
    ensures in_use { OnOk result ((IsTrue D.tells → DiskHolds D.Disk section.old nothing_known)
        → IsInUse D.Disk first total section.old section.new) }
    // Where a call fails, no crash leaves an old head with buckets that are cleared, nor one that
    // says that it is in use with buckets that aren't.
    ensures midway { OnErr result (IsTrue D.tells → DiskHolds D.Disk section.old nothing_known
        → IsMidway D.Disk first total section.old section.new) }
    ensures size { D.size section.new.disk ≡ D.size section.old.disk }
    ensures calls { CallsForBuckets D.Disk 24 section.old section.new }
    ensures refused { IfErr result (λ bad. bad ≡ ShardErr.Fault) }
    ensures faults { CountsFault is_section_fault result
        (D.faults section.old.disk) (D.faults section.new.disk) }
{
    images_agree::<D>();
    change_head(section, 2, first, total)?;
    clear_buckets(section, progress)?;
    change_head(section, 1, first, total)
}

/// Changes the head of a section, whose mark becomes 0. The change is on the disk when this
/// answers.
fn change_head<D: Disk>(
    section: &mut Section<D>,
    state: u8,
    first: u32,
    total: u32,
) -> Result<(), ShardErr>
    requires rest { IsAtRest section.old }
    requires numbers { first + section.old.buckets ≤ 2 ^ 32 }
    ensures changed { OnOk result (ChangesHead D.Disk state first total section.old section.new) }
    ensures stops { OnErr result (StopsHead D.Disk state first total section.old section.new) }
    ensures size { D.size section.new.disk ≡ D.size section.old.disk }
    ensures calls { IsTrue D.tells
        → D.calls section.new.disk ≤ D.calls section.old.disk + 4 }
    ensures refused { IfErr result (λ bad. bad ≡ ShardErr.Fault) }
    ensures faults { CountsFault is_section_fault result
        (D.faults section.old.disk) (D.faults section.new.disk) }
{
    soundness_is_kept::<D>();
    let under_way = section.is_changing();
    prove!(!under_way);
    section.begin_head(state, first, total, 0);
    while section.is_changing() {
        section.advance()?;
    }
    Ok(())
}

/// Clears all buckets of a section, and tells how far it is.
fn clear_buckets<D: Disk, G: Progress>(
    section: &mut Section<D>,
    progress: &mut G,
) -> Result<(), ShardErr>
    requires rest { IsAtRest section.old }
    requires numbers { section.old.head.first + section.old.buckets ≤ 2 ^ 32 }
    ensures same { section.new ≡ record section.old { disk = section.new.disk } }
    ensures holds { OnOk result (IsTrue D.tells → DiskHolds D.Disk section.old nothing_known
        → DiskHolds D.Disk section.new
        (cleared section.old.head.first section.old.buckets)) }
    ensures sound { IsTrue D.tells → DiskHolds D.Disk section.old nothing_known
        → DiskHolds D.Disk section.new nothing_known }
    ensures size { D.size section.new.disk ≡ D.size section.old.disk }
    ensures calls { CallsForBuckets D.Disk 16 section.old section.new }
    ensures refused { IfErr result (λ bad. bad ≡ ShardErr.Fault) }
    ensures faults { CountsFault is_section_fault result
        (D.faults section.old.disk) (D.faults section.new.disk) }
{
    soundness_is_kept::<D>();
    let first = section.head().first;
    let all = u64::from(section.buckets());
    for piece in 0..u64::from(PIECES) {
        let from = all * piece / u64::from(PIECES);
        let to = all * (piece + 1) / u64::from(PIECES);
        section.clear(first + from as u32, (to - from) as u32)?;
        progress.report(to, all);
    }
    Ok(())
}
