//! The device calls of the log and of the saved filter.

ghost use Rattle.std.specs.Prelude.{◌≡◌, ◌≤◌, ◌∷◌, [], ℕ, IsSome, IsTrue, List, Some, true, false};
ghost use Rattle.vt_bloom.specs.Bloom.{BloomState, HasCounts};
ghost use Rattle.vt_bloom.specs.Frame.{Covers};
ghost use Rattle.vt_model.specs.History.{History};
ghost use Rattle.vt_twin.specs.Twin.{twin_calls_made};
ghost use Rattle.vt_core.specs.declared.event.Event.{Event};
ghost use Rattle.vt_core.specs.Saving.{CallsDevice, SavesSoundly, devices_of};
ghost use Rattle.vt_core.specs.Sound.{IsSoundFilter};
ghost use Rattle.vt_core.specs.Stands.{scores_of};
ghost use Rattle.vt_core.specs.Work.{IsSaveBegun, IsSaved, SavesIn, SavesOne, out_of_progress, out_of_save};

use crate::event::Out;
use crate::laws::crash_gives_a_prefix;
use crate::store::Core;
use vt_base::{Scorer, Why};
use vt_bloom::{Bits, Bloom};
use vt_disk::{CallError, Disk};
use vt_log::{LogErr, Progress};
use vt_twin::Step;

impl<D: Disk, S: Scorer> Core<D, S> {
    ghost use Rattle.vt_core.specs.Steps.{Steps};

    /// The log makes its next device call.
    pub(crate) fn advance_log(&mut self) -> Out
        ensures { Steps S.score_of D.Disk Event.LogAdvance result self.old self.new }
    {
        crash_gives_a_prefix::<D>();
        vt_part::partitions_stay_on_disks::<D>();
        vt_part::arenas_are_apart();
        vt_part::layouts_are_in_order();
        vt_shard::more_are_durable::<D>();
        vt_bloom::true_marks_stay();
        let answer = self.log.advance();
        out_of_progress(answer)
    }

    /// The saved filter makes its next device call. Where no save is under way and one is due, it
    /// begins one of all durable blocks.
    pub(crate) fn advance_filter(&mut self) -> Out
        ensures { Steps S.score_of D.Disk Event.BloomAdvance result self.old self.new }
    {
        crash_gives_a_prefix::<D>();
        vt_bloom::true_marks_stay();
        let durable = self.log.durable();
        advance_any(&mut self.bloom, &self.bits, durable)
    }
}

/// What a call of the log gives.
fn out_of_progress(answer: Result<Progress, LogErr>) -> Out
    ensures { result ≡ out_of_progress answer }
{
    match answer {
        Ok(Progress::Idle) => Out::Nothing,
        Ok(Progress::Step) => Out::Moved,
        Ok(Progress::Durable(_)) => Out::Moved,
        Err(LogErr::Fault) => Out::Failed(Why::DiskFault),
        Err(LogErr::Stopped(call)) => Out::Failed(Why::Stopped(call)),
    }
}

/// Makes the next device call of a filter's saves, if there is a filter.
fn advance_any<D: Disk>(bloom: &mut Option<Bloom<D>>, bits: &Bits, durable: u64) -> Out
    requires counts { (b : BloomState D) → bloom.old ≡ Some b → HasCounts b bits.now }
    requires made { (b : BloomState D) → bloom.old ≡ Some b → twin_calls_made b.twin ≤ 3 }
    ensures saves { SavesIn bits.now durable result bloom.old bloom.new }
    ensures sound { (before after : BloomState D) → bloom.old ≡ Some before
        → bloom.new ≡ Some after → SavesSoundly D.Disk bits.now durable before after }
    ensures calls { CallsDevice D.Disk result (devices_of bloom.old) (devices_of bloom.new) }
{
    match bloom {
        Some(saved) => advance_save(saved, bits, durable),
        None => Out::Nothing,
    }
}

/// Begins a save where none is under way and one is due, and makes its next device call.
fn advance_save<D: Disk>(bloom: &mut Bloom<D>, bits: &Bits, durable: u64) -> Out
    requires counts { HasCounts bloom.old bits.now }
    requires made { twin_calls_made bloom.old.twin ≤ 3 }
    ensures saves { SavesOne bits.now durable result bloom.old bloom.new }
    ensures sound { SavesSoundly D.Disk bits.now durable bloom.old bloom.new }
    ensures calls { CallsDevice D.Disk result (bloom.old.disk ∷ []) (bloom.new.disk ∷ []) }
{
    vt_bloom::crash_gives_old_or_new::<D>();
    if !begin_save(bloom, bits, durable) {
        return Out::Nothing;
    }
    let answer = bloom.advance();
    out_of_save(answer)
}

/// Begins a save where none is under way and one is due. Whether one is under way then.
fn begin_save<D: Disk>(bloom: &mut Bloom<D>, bits: &Bits, durable: u64) -> bool
    requires { HasCounts bloom.old bits.now }
    ensures begun { result ≡ true → IsSaveBegun bits.now durable bloom.old bloom.new }
    ensures under_way { result ≡ true → IsSome bloom.new.twin.change }
    ensures done { result ≡ false → IsSaved durable bloom.old × (bloom.new ≡ bloom.old) }
    ensures sound { (score : List ℕ → List ℕ) (g : History) → IsTrue D.tells
        → Covers (scores_of score g) (record { filter = bits.now; mark = durable })
        → IsSoundFilter score D.Disk bloom.old g → IsSoundFilter score D.Disk bloom.new g }
{
    if bloom.saving() {
        return true;
    }
    if bloom.mark() == durable {
        return false;
    }
    bloom.save(bits, durable);
    true
}

/// What a call of a save gives.
fn out_of_save(answer: Result<Step, CallError>) -> Out
    ensures { result ≡ out_of_save answer }
{
    match answer {
        Ok(_) => Out::Moved,
        Err(CallError::Fault) => Out::Failed(Why::DiskFault),
        Err(CallError::Stopped(call)) => Out::Failed(Why::Stopped(call)),
    }
}
