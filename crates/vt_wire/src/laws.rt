//! Laws about frames, messages and lines. Each is the contract of a function that does nothing. No
//! code calls them: they check the definitions.

ghost use Rattle.std.specs.Prelude.{◌≡◌, ◌≢◌, ◌↔◌, ◌+◌, ◌<◌, ◌≤◌, ℕ, Bool, true, Some, List, ◌∷◌, ◌++◌, ◌⊎◌, length, take, drop};
ghost use Rattle.std.specs.List.{All, list_any};
ghost use Rattle.vt_base.specs.Bytes.{AreBytes};
ghost use Rattle.vt_base.specs.Protocol.{TMessage, RMessage, r_error, r_refused};
ghost use Rattle.vt_base.specs.declared.why.Why.{Why};
ghost use Rattle.vt_wire.specs.Awaited.{IsReplyTo, IsWrongAt};
ghost use Rattle.vt_wire.specs.Fields.{Form, IsFirstBad};
ghost use Rattle.vt_wire.specs.Frames.{Splits};
ghost use Rattle.vt_wire.specs.Lines.{IsLine, first_wrong_place, is_02, line_of, versions};
ghost use Rattle.vt_wire.specs.Messages.{is_request_type, SpellsBody, Spells, asked, FitsRequest, SpellsReply, spelled_reply, FitsReply};
ghost use Rattle.vt_wire.specs.Refusals.{forms_of};
ghost use Rattle.vt_wire.specs.Rules.{rule_words};
ghost use Rattle.vt_wire.specs.declared.protocol_cause.ProtocolCause.{ProtocolCause};

use crate::{Line, MAX_LINE, MAX_STRING};

/// Bytes are cut into frames and a rest in one way at most.
pub fn one_cutting()
    ensures { (bytes : List ℕ) (a b : List (List ℕ)) (r s : List ℕ) →
        Splits bytes a r → Splits bytes b s → (a ≡ b) × (r ≡ s) }
{}

/// Any bytes are frames and a rest.
pub fn any_bytes_are_cut()
    ensures { (bytes : List ℕ) → AreBytes bytes →
        (bodies : List (List ℕ)) × (rest : List ℕ) × Splits bytes bodies rest }
{}

/// When bytes follow, the frames that were cut stay, and cutting goes on in the rest.
pub fn cutting_goes_on()
    ensures { (front back : List ℕ) (bodies more : List (List ℕ)) (rest last : List ℕ) →
        Splits front bodies rest → Splits (rest ++ back) more last →
        Splits (front ++ back) (bodies ++ more) last }
{}

/// No bytes spell two requests, nor one under two tags.
pub fn one_request()
    ensures body { (m n : TMessage) (type : ℕ) (parameters : List ℕ) →
        SpellsBody m type parameters → SpellsBody n type parameters → m ≡ n }
    ensures frame { (s t : ℕ) (m n : TMessage) (bytes : List ℕ) →
        Spells s m bytes → Spells t n bytes → (s ≡ t) × (m ≡ n) }
{}

/// No bytes spell two replies, nor one under two tags, and replies that this server sends one
/// behind another are read apart in one way.
pub fn one_reply()
    ensures frame { (s t : ℕ) (p q : RMessage) (bytes : List ℕ) →
        SpellsReply s p bytes → SpellsReply t q bytes → (s ≡ t) × (p ≡ q) }
    ensures sent { (s t : ℕ) (p q : RMessage) (x y : List ℕ) → FitsReply p → FitsReply q →
        spelled_reply s p ++ x ≡ spelled_reply t q ++ y → (s ≡ t) × (p ≡ q) × (x ≡ y) }
{}

/// What this server sends spells its reply.
pub fn reply_is_spelled()
    ensures { (tag : ℕ) (reply : RMessage) → FitsReply reply →
        SpellsReply tag reply (spelled_reply tag reply) }
{}

/// What this client sends spells its request.
pub fn request_is_spelled()
    ensures { (tag : ℕ) (m : TMessage) → FitsRequest m → Spells tag m (asked tag m) }
{}

/// A frame spells a message, or it spells none.
pub fn a_body_is_read()
    ensures { (type : ℕ) (parameters : List ℕ) → AreBytes parameters →
        ((m : TMessage) × SpellsBody m type parameters)
        ⊎ ((m : TMessage) → ¬ SpellsBody m type parameters) }
{}

/// Where a frame of a request's type spells no message, one of its parameters is the first that
/// isn't spelled.
pub fn one_parameter_is_the_first_bad()
    ensures some { (type : ℕ) (parameters : List ℕ) →
        is_request_type type ≡ true → AreBytes parameters →
        ((m : TMessage) × SpellsBody m type parameters)
        ⊎ ((n : ℕ) × IsFirstBad (forms_of type) parameters n) }
    ensures none { (type : ℕ) (parameters : List ℕ) (m : TMessage) (n : ℕ) →
        SpellsBody m type parameters → ¬ IsFirstBad (forms_of type) parameters n }
    ensures one { (forms : List Form) (parameters : List ℕ) (m n : ℕ) →
        IsFirstBad forms parameters m → IsFirstBad forms parameters n → m ≡ n }
{}

/// The body of a frame is the reply that a client waits for, or something in it is the first that
/// is wrong, at one place.
pub fn replies_are_wrong_at_one_place()
    ensures some { (tag wanted : ℕ) (body : List ℕ) → AreBytes body →
        IsReplyTo tag wanted body ⊎ ((place : ℕ) × IsWrongAt tag wanted body place) }
    ensures none { (tag wanted : ℕ) (body : List ℕ) (place : ℕ) →
        IsReplyTo tag wanted body → ¬ IsWrongAt tag wanted body place }
    ensures one { (tag wanted : ℕ) (body : List ℕ) (p q : ℕ) →
        IsWrongAt tag wanted body p → IsWrongAt tag wanted body q → p ≡ q }
{}

/// The texts of Rerrors can be sent.
pub fn texts_fit()
    ensures why { (why : Why) → FitsReply (r_refused why) }
    ensures rule { (rule : ProtocolCause) → FitsReply (r_error (rule_words rule)) }
{}

/// The lines without a wrong byte are those of the grammar, with the versions that they offer. They
/// are given without their newlines.
pub fn good_lines()
    ensures accepted { (line comment : List ℕ) (offered : List (List ℕ)) →
        IsLine offered comment line → (first_wrong_place line ≡ None) × (versions line ≡ offered) }
    ensures spelled { (line : List ℕ) → All (λ b. b ≢ 10) line → first_wrong_place line ≡ None →
        (comment : List ℕ) × IsLine (versions line) comment line }
{}

/// What stands before the first wrong byte of a line begins a line, and from it on nothing does.
/// Where its place is the length, it is the newline.
pub fn first_wrong_byte()
    ensures begins { (line : List ℕ) (place : ℕ) →
        All (λ b. b ≢ 10) line → first_wrong_place line ≡ Some place →
        (offered : List (List ℕ)) × (comment : List ℕ) × (more : List ℕ)
        × (place ≤ length line) × IsLine offered comment (take place line ++ more) }
    ensures ends { (line more comment : List ℕ) (offered : List (List ℕ)) (place : ℕ) →
        All (λ b. b ≢ 10) line → first_wrong_place line ≡ Some place → place < length line →
        ¬ IsLine offered comment (take (place + 1) line ++ more) }
    ensures none { (line comment : List ℕ) (offered : List (List ℕ)) (place : ℕ) →
        first_wrong_place line ≡ Some place → ¬ IsLine offered comment line }
{}

/// What a client sent begins with a whole line exactly where it begins with a line of the grammar
/// and a newline, of at most 1,024 bytes together.
pub fn whole_lines()
    ensures read { (line more comment : List ℕ) (offered : List (List ℕ)) →
        IsLine offered comment line → length line < MAX_LINE →
        line_of (line ++ (10 ∷ more)) ≡ Line.Whole (length line + 1) (list_any is_02 offered) }
    ensures spelled { (input : List ℕ) (len : ℕ) (has : Bool) → line_of input ≡ Line.Whole len has →
        (offered : List (List ℕ)) × (comment : List ℕ) × (line : List ℕ)
        × IsLine offered comment line × (input ≡ line ++ (10 ∷ drop len input))
        × (len ≡ length line + 1) × (len ≤ MAX_LINE) × (has ≡ list_any is_02 offered) }
{}

/// More is wanted exactly where no newline came and at most 1,024 bytes did. Without a newline
/// among them, 1,025 bytes are too long.
pub fn unfinished_lines()
    ensures more { (input : List ℕ) →
        (line_of input ≡ Line.More) ↔ (All (λ b. b ≢ 10) input × (length input ≤ MAX_LINE)) }
    ensures over { (input : List ℕ) →
        All (λ b. b ≢ 10) (take MAX_LINE input) → MAX_LINE < length input →
        line_of input ≡ Line.Bad MAX_LINE }
{}

/// A line is wrong where its first wrong byte is, or at place 1,024 where it is too long.
pub fn wrong_lines()
    ensures { (input : List ℕ) (place : ℕ) → line_of input ≡ Line.Bad place →
        ((line : List ℕ) × (more : List ℕ) × (input ≡ line ++ (10 ∷ more))
        × All (λ b. b ≢ 10) line × (length line < MAX_LINE) × (first_wrong_place line ≡ Some place))
        ⊎ (All (λ b. b ≢ 10) (take MAX_LINE input) × (MAX_LINE < length input)
        × (place ≡ MAX_LINE)) }
{}

/// A line that is whole or wrong stays so when bytes follow.
pub fn whole_lines_stay()
    ensures { (input more : List ℕ) →
        line_of input ≢ Line.More → line_of (input ++ more) ≡ line_of input }
{}

/// How many bytes a string has at most, and a line with its newline.
pub fn limits_are_fixed()
    ensures string { MAX_STRING ≡ 1024 }
    ensures line { MAX_LINE ≡ 1024 }
{}
