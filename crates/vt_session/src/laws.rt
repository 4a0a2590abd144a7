//! Laws of sessions, each the contract of a function that does nothing: what the layers above lean on where a
//! session goes on, is cut or joined to another. `score` is any function of a block's bytes, `c` what the store was
//! opened with, and `h` the history that answers. An operation is answered by the first n blocks of that, which is
//! its number: those of a talk lie between `n0` and `n1`, and never fall.

ghost use Rattle.std.specs.Prelude.{◌≡◌, ◌≢◌, ℕ, Some, None, List, [], ◌∷◌, ◌++◌, length, take};
ghost use Rattle.std.specs.Prelude.{◌≤◌, ◌<◌, ◌^◌, ◌↔◌, map, slice_get, slice_index, All};
ghost use Rattle.std.specs.List.{flat_map};
ghost use Rattle.std.specs.List.Sorted.{IsStrictlyIncreasing};
ghost use Rattle.vt_base.specs.Bytes.{AreBytes};
ghost use Rattle.vt_base.specs.Faults.{HasRisen};
ghost use Rattle.vt_base.specs.Protocol.{Operation, write, r_write};
ghost use Rattle.vt_wire.specs.Frames.{framed, IsBody, IsPartial};
ghost use Rattle.vt_model.specs.Answer.{Outcome};
ghost use Rattle.vt_model.specs.History.{History, held};
ghost use Rattle.vt_model.specs.Legal.{IsLegal};
ghost use Rattle.vt_model.specs.Places.{Setup};
ghost use Rattle.vt_session.specs.Heard.{Item, Heard, Means, Unheard, HearsRest, end_of};
ghost use Rattle.vt_session.specs.Hearing.{Hearing, HearsOn, behind_frame};
ghost use Rattle.vt_model.specs.Causes.{Part, Cause, disk_fault, NoneFell, OneRose};
ghost use Rattle.vt_session.specs.Turns.{Turn, served, spelled_turn};
ghost use Rattle.vt_session.specs.Turns.{items_of_turns, output_of, said_pieces, added_of, causes_of};
ghost use Rattle.vt_session.specs.Turns.{added_numbers, synced_numbers};
ghost use Rattle.vt_session.specs.Answered.{AnsweredBy, AnsweredAlone, CountsRise};
ghost use Rattle.vt_session.specs.Answered.{Faults, no_faults, AreToldBy};
ghost use Rattle.vt_session.specs.Talk.{Talk, Alone, EndsInLast, AnswersAll, EndsByInput};
ghost use Rattle.vt_session.specs.Talk.{TalkSoFar, ComesBehind, over_both, HasScores, spent_len};
ghost use Rattle.vt_session.specs.Talking.{Stage, HearsStage, stage_with, fed_stage};
ghost use Rattle.vt_session.specs.declared.Ended.{Ended};
ghost use Rattle.vt_session.specs.declared.Ended.TheVariants.{Goodbye, Closed, Cut, Malformed};
ghost use Rattle.vt_session.specs.declared.Ended.TheVariants.{WriteFault};

use vt_model::laws::{added_is_held, adding_keeps_legal, refusals_add_nothing};

/// Every input is heard, and in one way.
pub fn heard_once()
    ensures some { (input : List ℕ) → AreBytes input →
        ((items : List Item) × (ended : Ended) × Heard input items ended) }
    ensures one { (input : List ℕ) (items items' : List Item) (ended ended' : Ended) →
        Heard input items ended → Heard input items' ended' → (items ≡ items') × (ended ≡ ended') }
{}

/// What is left of an input is heard in one way.
pub fn hearing_once()
    ensures { (h : Hearing) (items items' : List Item) (ended ended' : Ended) →
        HearsOn h items ended → HearsOn h items' ended' → (items ≡ items') × (ended ≡ ended') }
{}

/// What is heard of an input that goes on begins with what was heard of its front. Where the front
/// ends the session, nothing behind it is heard.
pub fn heard_goes_on()
    ensures front { (input more : List ℕ) (items items' : List Item) (ended ended' : Ended) →
        Heard input items ended → Heard (input ++ more) items' ended' →
        ((later : List Item) × (items' ≡ items ++ later)) }
    ensures ended { (input more : List ℕ) (items : List Item) (ended : Ended) →
        AreBytes (input ++ more) → Heard input items ended → ended ≢ Closed → ended ≢ Cut →
        Heard (input ++ more) items ended }
{}

/// A session to which nobody else adds is determined by its input: two of them over one history,
/// without a failure of the store, say the same and leave the same history.
pub fn alone_is_determined()
    ensures outcome { (score : List ℕ → List ℕ) (c : Setup) (faults faults' : Faults)
        (before : History) (input : List ℕ)
        (out : List ℕ) (turns : List Turn) (ended : Ended) (after : History)
        (out' : List ℕ) (turns' : List Turn) (ended' : Ended) (after' : History) →
        Alone score c faults before input out turns ended after →
        Alone score c faults' before input out' turns' ended' after' →
        causes_of turns ≡ [] → causes_of turns' ≡ [] → AnswersAll ended → AnswersAll ended' →
        (out ≡ out') × (turns ≡ turns') × (after ≡ after') }
    ensures ending { (score : List ℕ → List ℕ) (c : Setup) (faults faults' : Faults)
        (before : History) (input : List ℕ)
        (out : List ℕ) (turns : List Turn) (ended : Ended) (after : History)
        (out' : List ℕ) (turns' : List Turn) (ended' : Ended) (after' : History) →
        Alone score c faults before input out turns ended after →
        Alone score c faults' before input out' turns' ended' after' →
        EndsByInput ended → EndsByInput ended' → ended ≡ ended' }
{}

/// Without a write fault, what came in and what went out tell which history a session left,
/// failures or not.
pub fn bytes_tell_history()
    ensures { (score : List ℕ → List ℕ) (c : Setup) (faults faults' : Faults)
        (before : History) (input output : List ℕ)
        (turns : List Turn) (ended : Ended) (after : History)
        (turns' : List Turn) (ended' : Ended) (after' : History) →
        HasScores score → IsLegal score c before →
        Alone score c faults before input output turns ended after →
        Alone score c faults' before input output turns' ended' after' →
        ended ≢ WriteFault → ended' ≢ WriteFault → after ≡ after' }
{
    adding_keeps_legal();
}

/// A talk of a history is a talk of every history that begins with it, in the same turns.
pub fn talk_of_longer()
    ensures { (score : List ℕ → List ℕ) (c : Setup) (faults : Faults)
        (h more : History) (n0 : ℕ)
        (input output : List ℕ) (turns : List Turn) (ended : Ended) (n1 : ℕ) →
        Talk score c faults h n0 input output turns ended n1 →
        Talk score c faults (h ++ more) n0 input output turns ended n1 }
{}

/// A session to which nobody else adds is a talk of the history that it leaves, in the same turns.
pub fn alone_is_talk()
    ensures { (score : List ℕ → List ℕ) (c : Setup) (faults : Faults)
        (before : History)
        (input output : List ℕ) (turns : List Turn) (ended : Ended) (after : History) →
        Alone score c faults before input output turns ended after →
        Talk score c faults after (length before) input output turns ended (length after) }
{}

/// It leaves the history that it found, and behind it the blocks that its turns added.
pub fn alone_adds()
    ensures { (score : List ℕ → List ℕ) (c : Setup) (faults : Faults)
        (before : History)
        (input output : List ℕ) (turns : List Turn) (ended : Ended) (after : History) →
        Alone score c faults before input output turns ended after →
        after ≡ before ++ added_of turns }
{}

/// It leaves a legal history where it found one.
pub fn alone_keeps_legal()
    ensures { (score : List ℕ → List ℕ) (c : Setup) (faults : Faults)
        (before : History)
        (input output : List ℕ) (turns : List Turn) (ended : Ended) (after : History) →
        IsLegal score c before → Alone score c faults before input output turns ended after →
        IsLegal score c after }
{
    adding_keeps_legal();
}

/// Every input of less than 2^62 bytes has a session that the input ends and in which nothing
/// fails.
pub fn every_input_has_a_session()
    ensures { (score : List ℕ → List ℕ) (c : Setup) (before : History) (input : List ℕ) →
        AreBytes input → length input < spent_len →
        ((output : List ℕ) × (turns : List Turn) × (ended : Ended) × (after : History)
        × Alone score c no_faults before input output turns ended after
        × (causes_of turns ≡ []) × EndsByInput ended) }
{}

/// Turns and then more turns, where nobody else adds.
pub fn more_turns_join()
    ensures { (score : List ℕ → List ℕ) (c : Setup)
        (before between after : History) (turns more : List Turn) →
        AnsweredAlone score c before turns between → AnsweredAlone score c between more after →
        AnsweredAlone score c before (turns ++ more) after }
{}

/// Turns of a history and then turns of one that goes on, whose numbers begin at the length of the
/// first.
pub fn later_turns_join()
    ensures { (score : List ℕ → List ℕ) (c : Setup) (h added : History)
        (low high low' high' : ℕ) (turns more : List Turn) →
        AnsweredBy score c h low high turns →
        low ≤ low' → high ≤ length h → length h ≤ low' → high ≤ high' →
        AnsweredBy score c (h ++ added) low' high' more →
        AnsweredBy score c (h ++ added) low high' (turns ++ more) }
{}

/// Where writing stops anywhere, it stops in one of the pieces, and the turns up to there are those
/// of a session that looked no further.
pub fn cut_output()
    ensures piece { (turns : List Turn) (output unsaid : List ℕ) →
        output_of turns ≡ output ++ unsaid →
        ((front : List Turn) × (behind : List Turn) × (turns ≡ front ++ behind)
        × EndsInLast (said_pieces front) output) }
    ensures session { (score : List ℕ → List ℕ) (c : Setup) (before after : History)
        (front behind : List Turn) →
        AnsweredAlone score c before (front ++ behind) after →
        ((between : History) × AnsweredAlone score c before front between
        × AnsweredAlone score c between behind after) }
{}

/// One step of hearing, by what the first frame comes to, and the end where no frame is whole.
pub fn hearing_steps()
    ensures item { (left : Unheard) (type tag : ℕ) (parameters more : List ℕ) (item : Item)
        (items : List Item) (ended : Ended) →
        let body = type ∷ tag ∷ parameters in
        IsBody body → left.bytes ≡ framed body ++ more →
        Means left.offered left.greeted type tag parameters (Some item) →
        (HearsRest left items ended ↔ ((later : List Item) × (items ≡ item ∷ later)
        × HearsRest (behind_frame left body item more) later ended)) }
    ensures goodbye { (left : Unheard) (type tag : ℕ) (parameters more : List ℕ) →
        let body = type ∷ tag ∷ parameters in
        IsBody body → left.bytes ≡ framed body ++ more → AreBytes more →
        Means left.offered left.greeted type tag parameters None → HearsRest left [] Goodbye }
    ensures malformed { (left : Unheard) (body more : List ℕ) →
        length body < 2 → left.bytes ≡ framed body ++ more → AreBytes more →
        HearsRest left [] (Malformed left.place) }
    ensures partial { (left : Unheard) →
        IsPartial left.bytes → HearsRest left [] (end_of left.bytes) }
{}

/// Bytes that were fed are heard with what comes in behind them; where nothing more comes, a stage
/// is as it was.
pub fn feeding_goes_on()
    ensures fed { (stage : Stage) (piece more : List ℕ) (items : List Item) (ended : Ended) →
        HearsStage (stage_with (fed_stage stage piece) more) items ended →
        HearsStage (stage_with stage (piece ++ more)) items ended }
    ensures none { (stage : Stage) → stage_with stage [] ≡ stage }
{}

/// A talk begins with no turns. What a link was told so far of a history, it was told of every
/// history that begins with it; and what it is told next, of a history that goes on, comes behind
/// it.
pub fn talks_go_on()
    ensures begins { (score : List ℕ → List ℕ) (c : Setup) (faults : Faults) (h : History) (n : ℕ) →
        NoneFell faults.before faults.after → n ≤ length h →
        TalkSoFar score c faults h n [] n }
    ensures longer { (score : List ℕ → List ℕ) (c : Setup) (faults : Faults) (h more : History)
        (n0 : ℕ) (turns : List Turn) (n1 : ℕ) →
        TalkSoFar score c faults h n0 turns n1 →
        TalkSoFar score c faults (h ++ more) n0 turns n1 }
    ensures behind { (score : List ℕ → List ℕ) (c : Setup) (first next : Faults)
        (h added : History) (n0 n1 m0 m1 : ℕ) (turns more : List Turn) →
        TalkSoFar score c first h n0 turns n1 →
        TalkSoFar score c next (h ++ added) m0 more m1 →
        ComesBehind first next → length h ≤ m0 →
        TalkSoFar score c (over_both first next) (h ++ added) n0 (turns ++ more) m1 }
{}

/// What turns tell, in order, more turns go on with: the items that were heard, what was written,
/// the blocks that were added and their numbers, the numbers of syncs, and the causes of failures.
pub fn turns_tell_in_order()
    ensures items { (turns more : List Turn) →
        items_of_turns (turns ++ more) ≡ items_of_turns turns ++ items_of_turns more }
    ensures output { (turns more : List Turn) →
        output_of (turns ++ more) ≡ output_of turns ++ flat_map spelled_turn more }
    ensures added { (turns more : List Turn) →
        added_of (turns ++ more) ≡ added_of turns ++ added_of more }
    ensures numbers { (turns more : List Turn) →
        added_numbers (turns ++ more) ≡ added_numbers turns ++ added_numbers more }
    ensures synced { (turns more : List Turn) →
        synced_numbers (turns ++ more) ≡ synced_numbers turns ++ synced_numbers more }
    ensures causes { (turns more : List Turn) →
        causes_of (turns ++ more) ≡ causes_of turns ++ causes_of more }
{}

/// Where one of several counts of failed calls rises and the others stand, the counts before and
/// behind tell of a disk fault; where all stand, of none.
pub fn one_count_rises()
    ensures rose { (before after : List ℕ) (which : ℕ) →
        HasRisen (slice_index before which) (slice_index after which) → OneRose before after }
    ensures none_fell { (before after : List ℕ) (which : ℕ) →
        ((i : ℕ) → slice_index before i < 2 ^ 64) →
        HasRisen (slice_index before which) (slice_index after which) →
        ((i : ℕ) → i ≢ which → slice_index after i ≡ slice_index before i) →
        NoneFell before after }
    ensures told { (before after : List ℕ) (stops : List (Part × ℕ)) → NoneFell before after →
        AreToldBy (record { before = before; after = after; stops = stops })
        (disk_fault before after ∷ []) }
    ensures stand { (counts : List ℕ) (stops : List (Part × ℕ)) →
        AreToldBy (record { before = counts; after = counts; stops = stops }) [] }
{}

/// Causes and then more causes, of which the counts go on. The faults that tell of causes tell of
/// their front.
pub fn causes_join()
    ensures counts { (first between last : List ℕ) (causes more : List Cause) →
        CountsRise first causes between → CountsRise between more last →
        CountsRise first (causes ++ more) last }
    ensures front { (faults : Faults) (causes more : List Cause) →
        AreToldBy faults (causes ++ more) → AreToldBy faults causes }
{}

/// Where the write of a reply stops, the pieces end in that reply.
pub fn write_fault_in_a_reply()
    ensures { (turns : List Turn) (turn : Turn) (said unsaid : List ℕ) →
        spelled_turn turn ≡ said ++ unsaid →
        EndsInLast (said_pieces (turns ++ turn ∷ [])) (output_of turns ++ said) }
{}

/// A block that a write stored is held at each later operation, as at a sync.
pub fn written_blocks_are_held()
    ensures { (score : List ℕ → List ℕ) (c : Setup) (h : History) (low high : ℕ)
        (front between behind : List Turn)
        (t kind : ℕ) (bytes : List ℕ) (m : ℕ) (stored : Outcome)
        (u : ℕ) (operation : Operation) (n : ℕ) (outcome : Outcome) →
        AnsweredBy score c h low high
        (front ++ served t (write kind bytes) m stored
        ∷ (between ++ served u operation n outcome ∷ behind)) →
        0 < length bytes → stored.reply ≡ r_write (score bytes) →
        held score (take n h) (score bytes) kind ≡ Some bytes }
{
    added_is_held();
    refusals_add_nothing();
}

/// The numbers of the blocks that a talk added rise, and they are the places of those blocks in the
/// history; also of a talk that goes on.
pub fn added_numbers_rise()
    ensures within { (score : List ℕ → List ℕ) (c : Setup) (faults : Faults) (h : History) (n0 : ℕ)
        (input output : List ℕ) (turns : List Turn) (ended : Ended) (n1 : ℕ) →
        Talk score c faults h n0 input output turns ended n1 →
        All (λ n. (n0 ≤ n) × (n < length h)) (added_numbers turns) }
    ensures rising { (score : List ℕ → List ℕ) (c : Setup) (faults : Faults) (h : History) (n0 : ℕ)
        (input output : List ℕ) (turns : List Turn) (ended : Ended) (n1 : ℕ) →
        Talk score c faults h n0 input output turns ended n1 →
        IsStrictlyIncreasing (added_numbers turns) }
    ensures blocks { (score : List ℕ → List ℕ) (c : Setup) (faults : Faults) (h : History) (n0 : ℕ)
        (input output : List ℕ) (turns : List Turn) (ended : Ended) (n1 : ℕ) →
        Talk score c faults h n0 input output turns ended n1 →
        map (slice_get h) (added_numbers turns) ≡ map Some (added_of turns) }
    ensures so_far { (score : List ℕ → List ℕ) (c : Setup) (faults : Faults) (h : History)
        (n0 : ℕ) (turns : List Turn) (n1 : ℕ) → TalkSoFar score c faults h n0 turns n1 →
        All (λ n. (n0 ≤ n) × (n < length h)) (added_numbers turns)
        × IsStrictlyIncreasing (added_numbers turns)
        × (map (slice_get h) (added_numbers turns) ≡ map Some (added_of turns)) }
{}
