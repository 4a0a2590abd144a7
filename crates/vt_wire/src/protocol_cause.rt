//! The rules of a session that a client can break, and go on.

ghost use Rattle.std.specs.Prelude.{◌≡◌};
ghost use Rattle.vt_wire.specs.Rules.{rule_words};

/// What a client did against the rules of a session.
#[derive(Clone, Copy, Debug, PartialEq, Eq)]
pub enum ProtocolCause {
    /// A request came before a hello was accepted.
    HelloExpected,
    /// A hello came after one was accepted.
    HelloRepeated,
    /// The hello names another version than 02, or the client's line lacks 02.
    VersionNotAgreed,
    /// The parameters are not spelled.
    BadMessage,
    /// No request has this type.
    UnknownMessage,
}

/// The text that a client is sent (venti(6), Rerror).
pub fn rule_text(rule: ProtocolCause) -> &'static str
    ensures { result.now ≡ rule_words rule }
{
    match rule {
        ProtocolCause::HelloExpected => "hello expected",
        ProtocolCause::HelloRepeated => "hello repeated",
        ProtocolCause::VersionNotAgreed => "version not agreed",
        ProtocolCause::BadMessage => "bad message",
        ProtocolCause::UnknownMessage => "unknown message",
    }
}
