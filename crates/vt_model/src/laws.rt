//! Laws of the definitions of this crate, each the contract of a function that does nothing. Those
//! that no code calls check the definitions. In each, `score` is any function of a block's bytes,
//! also one that gives different bytes one score.

ghost use Rattle.std.specs.Prelude.{◌≡◌, ◌≢◌, ◌↔◌, ◌⊎◌, ℕ, ◌+◌, ◌*◌, ◌%◌, ◌<◌, ◌≤◌, true, false, List, [], ◌∷◌, ◌++◌, Some, None, slice_get, slice_index, length, take, sum};
ghost use Rattle.std.specs.List.{AllPairs};
ghost use Rattle.vt_base.specs.Bytes.{AreBytes};
ghost use Rattle.vt_base.specs.Protocol.{Operation, write, r_write, r_error};
ghost use Rattle.vt_model.specs.declared.TheConstants.{ARENA_HEAD_LEN, CLUMP_HEADER_LEN, CLUMP_UNIT, DIRECTORY_ENTRY_LEN, BUCKET_ROOM};
ghost use Rattle.vt_model.specs.History.{History, Accepted, held, HasScoreAt, HasKeyAt};
ghost use Rattle.vt_model.specs.Places.{Setup, Spot, StandsAt, version_of, clump_len, clump_len_in, directory_len, directory_len_in, lengths_in, offset_behind, place_of, current_arena, next_arena};
ghost use Rattle.vt_model.specs.Places.{bucket_of, section_of_bucket, LiesIn};
ghost use Rattle.vt_model.specs.Answer.{answer, with_added, collides};
ghost use Rattle.vt_model.specs.Legal.{IsLegal, HasOtherKey, NoCollision};

/// What an answer adds keeps a history legal.
pub fn adding_keeps_legal()
    ensures { (score : List ℕ → List ℕ) (c : Setup) (h : History) (m : Operation) →
        IsLegal score c h → IsLegal score c (with_added h (answer score c h m).added) }
{}

/// What was added is held from then on.
pub fn added_is_held()
    ensures { (score : List ℕ → List ℕ) (c : Setup) (h : History) (m : Operation) (e : Accepted) →
        (answer score c h m).added ≡ Some e →
        held score (h ++ e ∷ []) (score e.block.bytes) e.block.kind ≡ Some e.block.bytes }
{}

/// A block that is added changes nothing under any other score or type.
pub fn other_keys_stay()
    ensures scores { (score : List ℕ → List ℕ) (h : History) (e : Accepted)
        (s : List ℕ) (kind : ℕ) →
        s ≢ score e.block.bytes → held score (h ++ e ∷ []) s kind ≡ held score h s kind }
    ensures kinds { (score : List ℕ → List ℕ) (h : History) (e : Accepted) (s : List ℕ) (kind : ℕ) →
        kind ≢ e.block.kind → held score (h ++ e ∷ []) s kind ≡ held score h s kind }
{}

/// In a legal history blocks with one score have the same bytes, and no two have the same type too.
pub fn equal_keys_have_equal_bytes()
    ensures bytes { (score : List ℕ → List ℕ) (c : Setup) (h : History) → IsLegal score c h →
        (i j : ℕ) (a b : Accepted) → slice_get h i ≡ Some a → slice_get h j ≡ Some b →
        score a.block.bytes ≡ score b.block.bytes → a.block.bytes ≡ b.block.bytes }
    ensures place { (score : List ℕ → List ℕ) (c : Setup) (h : History) → IsLegal score c h →
        (i j : ℕ) (a b : Accepted) → slice_get h i ≡ Some a → slice_get h j ≡ Some b →
        score a.block.bytes ≡ score b.block.bytes → a.block.kind ≡ b.block.kind → i ≡ j }
{}

/// What a legal history began as was legal.
pub fn prefix_is_legal()
    ensures { (score : List ℕ → List ℕ) (c : Setup) (h more : History) →
        IsLegal score c (h ++ more) → IsLegal score c h }
{}

/// Only a write adds, and just the block that it brings, and its reply is that block's score. A
/// refusal adds nothing.
pub fn refusals_add_nothing()
    ensures operation { (score : List ℕ → List ℕ) (c : Setup) (h : History)
        (m : Operation) (e : Accepted) →
        (answer score c h m).added ≡ Some e → m ≡ write e.block.kind e.block.bytes }
    ensures reply { (score : List ℕ → List ℕ) (c : Setup) (h : History)
        (m : Operation) (e : Accepted) →
        let outcome = answer score c h m in
        outcome.added ≡ Some e → outcome.reply ≡ r_write (score e.block.bytes) }
    ensures refused { (score : List ℕ → List ℕ) (c : Setup) (h : History)
        (m : Operation) (text : List ℕ) →
        let outcome = answer score c h m in
        outcome.reply ≡ r_error text → outcome.added ≡ None }
{}

/// An arena's clumps stand one behind another, from the arena's head on. In a legal history its
/// directory has room between the end of each and the arena's end.
pub fn blocks_dont_overlap()
    ensures head { (c : Setup) (h : History) (i : ℕ) (e : Accepted) (s : Spot) →
        StandsAt c h i e s → ARENA_HEAD_LEN ≤ s.offset }
    ensures behind { (c : Setup) (h : History) (i j : ℕ) (e f : Accepted) (s t : Spot) →
        StandsAt c h i e s → StandsAt c h j f t → s.arena ≡ t.arena → i < j →
        s.offset + clump_len c s.arena (length e.block.bytes) ≤ t.offset }
    ensures right_behind { (c : Setup) (h : History) (i : ℕ) (e f : Accepted) (s t : Spot) →
        StandsAt c h i e s → StandsAt c h (i + 1) f t → s.arena ≡ t.arena →
        s.offset + clump_len c s.arena (length e.block.bytes) ≡ t.offset }
    ensures directory { (score : List ℕ → List ℕ) (c : Setup) (h : History)
        (i : ℕ) (e : Accepted) (s : Spot) →
        IsLegal score c h → StandsAt c h i e s →
        s.offset + clump_len c s.arena (length e.block.bytes)
        + directory_len c s.arena (length (lengths_in s.arena h)) ≤ slice_index c.arenas s.arena }
{}

/// In an arena of version 2 each clump begins at a sector's start, and it and the directory take
/// whole sectors, fewer than one more than they need.
pub fn version_2_has_whole_sectors()
    ensures clumps { (c : Setup) (h : History) (i : ℕ) (e : Accepted) (s : Spot) →
        version_of c s.arena ≡ 2 → StandsAt c h i e s → s.offset % CLUMP_UNIT ≡ 0 }
    ensures room { (n : ℕ) → (CLUMP_HEADER_LEN + n ≤ clump_len_in 2 n)
        × (clump_len_in 2 n < CLUMP_HEADER_LEN + n + CLUMP_UNIT)
        × (clump_len_in 2 n % CLUMP_UNIT ≡ 0) }
    ensures directory { (blocks : ℕ) →
        (DIRECTORY_ENTRY_LEN * blocks ≤ directory_len_in 2 blocks)
        × (directory_len_in 2 blocks < DIRECTORY_ENTRY_LEN * blocks + CLUMP_UNIT)
        × (directory_len_in 2 blocks % CLUMP_UNIT ≡ 0) }
{}

/// Blocks that are added move no earlier one. An added block stands in the arena that was found for
/// it, behind that arena's blocks.
pub fn places_stay()
    ensures earlier { (c : Setup) (h more : History) (i : ℕ) →
        i < length h → place_of c (h ++ more) i ≡ place_of c h i }
    ensures added { (c : Setup) (h : History) (e : Accepted) →
        let offset = offset_behind c e.arena (lengths_in e.arena h) in
        place_of c (h ++ e ∷ []) (length h) ≡ Some (record { arena = e.arena; offset = offset }) }
    ensures arena { (score : List ℕ → List ℕ) (c : Setup) (h : History)
        (m : Operation) (e : Accepted) →
        (answer score c h m).added ≡ Some e → next_arena c h (length e.block.bytes) ≡ Some e.arena }
{}

/// There is a bucket for each score, and a section for each bucket.
pub fn buckets_are_in_range()
    ensures bucket { (n : ℕ) (s : List ℕ) → AreBytes s → 0 < n → bucket_of n s < n }
    ensures section { (sections : List ℕ) (b : ℕ) →
        b < sum sections → section_of_bucket sections b < length sections }
{}

/// A section has the buckets of its range, and no others.
pub fn sections_have_ranges()
    ensures { (sections : List ℕ) (i bucket : ℕ) → i < length sections →
        (section_of_bucket sections bucket ≡ i) ↔ LiesIn sections i bucket }
{}

/// What is held under a key, by the blocks' numbers: the bytes of the block that has the key, and
/// nothing where none has it; but no bytes under the zero score.
pub fn held_by_number()
    ensures block { (score : List ℕ → List ℕ) (h : History) (i : ℕ) (s : List ℕ) (kind : ℕ) →
        AllPairs (HasOtherKey score) h → s ≢ score [] → (it : HasKeyAt score h i s kind) →
        held score h s kind ≡ Some it.block.block.bytes }
    ensures none { (score : List ℕ → List ℕ) (h : History) (s : List ℕ) (kind : ℕ) →
        s ≢ score [] → ((i : ℕ) → ¬ HasKeyAt score h i s kind) → held score h s kind ≡ None }
    ensures zero { (score : List ℕ → List ℕ) (h : History) (kind : ℕ) →
        held score h (score []) kind ≡ Some [] }
    ensures found { (score : List ℕ → List ℕ) (h : History) (s : List ℕ) (kind : ℕ)
        (bytes : List ℕ) → s ≢ score [] → held score h s kind ≡ Some bytes →
        (i : ℕ) × (it : HasKeyAt score h i s kind) × (it.block.block.bytes ≡ bytes) }
    ensures absent { (score : List ℕ → List ℕ) (h : History) (i : ℕ) (s : List ℕ) (kind : ℕ) →
        held score h s kind ≡ None → ¬ HasKeyAt score h i s kind }
{}

/// When a write collides, by the blocks' numbers: its score is the zero score, or a block that has
/// the score has other bytes. Where no two blocks collide, one block of the score tells it.
pub fn collides_by_number()
    ensures zero { (score : List ℕ → List ℕ) (h : History) (bytes : List ℕ) →
        score bytes ≡ score [] → collides score h bytes ≡ true }
    ensures other { (score : List ℕ → List ℕ) (h : History) (i : ℕ) (bytes : List ℕ)
        (it : HasScoreAt score h i (score bytes)) →
        it.block.block.bytes ≢ bytes → collides score h bytes ≡ true }
    ensures same { (score : List ℕ → List ℕ) (h : History) (i : ℕ) (bytes : List ℕ)
        (it : HasScoreAt score h i (score bytes)) → AllPairs (NoCollision score) h →
        score bytes ≢ score [] → it.block.block.bytes ≡ bytes → collides score h bytes ≡ false }
    ensures none { (score : List ℕ → List ℕ) (h : History) (bytes : List ℕ) →
        score bytes ≢ score [] → ((i : ℕ) → ¬ HasScoreAt score h i (score bytes)) →
        collides score h bytes ≡ false }
    ensures found { (score : List ℕ → List ℕ) (h : History) (bytes : List ℕ) →
        collides score h bytes ≡ true → (score bytes ≡ score [])
        ⊎ ((i : ℕ) × (it : HasScoreAt score h i (score bytes)) × (it.block.block.bytes ≢ bytes)) }
    ensures free { (score : List ℕ → List ℕ) (h : History) (bytes : List ℕ) →
        collides score h bytes ≡ false → (score bytes ≢ score [])
        × ((i : ℕ) (it : HasScoreAt score h i (score bytes)) → it.block.block.bytes ≡ bytes) }
{}

/// Which arena was the first unsealed one when a store was opened makes no difference to what is
/// legal, nor to where its blocks stand.
pub fn base_is_free()
    ensures legal { (score : List ℕ → List ℕ) (c : Setup) (base : ℕ) (h : History) →
        IsLegal score c h → IsLegal score (record c { base = base }) h }
    ensures places { (c : Setup) (base : ℕ) (h : History) (i : ℕ) →
        place_of (record c { base = base }) h i ≡ place_of c h i }
{}

/// The first n blocks of a legal history are a legal history. They stand where they stood, have the
/// keys that they had, and fill no later arena.
pub fn first_blocks_are_legal()
    ensures legal { (score : List ℕ → List ℕ) (c : Setup) (h : History) (n : ℕ) →
        IsLegal score c h → IsLegal score c (take n h) }
    ensures places { (c : Setup) (h : History) (n i : ℕ) →
        i < n → place_of c (take n h) i ≡ place_of c h i }
    ensures keys { (score : List ℕ → List ℕ) (h : History) (n i : ℕ) (s : List ℕ) (kind : ℕ) →
        HasKeyAt score (take n h) i s kind ↔ ((i < n) × HasKeyAt score h i s kind) }
    ensures arena { (score : List ℕ → List ℕ) (c : Setup) (h : History) (n : ℕ) →
        IsLegal score c h → current_arena c (take n h) ≤ current_arena c h }
{}

/// What is held stays held when blocks are added, and the first blocks hold nothing else.
pub fn held_stays()
    ensures longer { (score : List ℕ → List ℕ) (h more : History) (s : List ℕ) (kind : ℕ)
        (bytes : List ℕ) → held score h s kind ≡ Some bytes →
        held score (h ++ more) s kind ≡ Some bytes }
    ensures first { (score : List ℕ → List ℕ) (h : History) (n : ℕ) (s : List ℕ) (kind : ℕ)
        (bytes : List ℕ) → held score (take n h) s kind ≡ Some bytes →
        held score h s kind ≡ Some bytes }
{}

/// The sizes of an arena's parts, and how many blocks a bucket of 8,192 bytes has room for.
pub fn sizes_are_fixed()
    ensures head { ARENA_HEAD_LEN ≡ 24576 }
    ensures header { CLUMP_HEADER_LEN ≡ 38 }
    ensures entry { DIRECTORY_ENTRY_LEN ≡ 25 }
    ensures unit { CLUMP_UNIT ≡ 512 }
    ensures bucket { BUCKET_ROOM ≡ 263 }
{}
