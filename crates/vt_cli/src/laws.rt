//! What follows of what words ask for. No code calls these laws: they check the definitions.

ghost use Rattle.std.specs.Prelude.{◌≡◌, List, [], codes};
ghost use Rattle.clap.specs.Words.{Text};
ghost use Rattle.vt_cli.specs.declared.asked.Asked.{Asked};
ghost use Rattle.vt_cli.specs.declared.asked.Asked.TheVariants.{Do};
ghost use Rattle.vt_cli.specs.declared.command.Command.{Command};
ghost use Rattle.vt_cli.specs.declared.command.Command.TheVariants.{Session};
ghost use Rattle.vt_cli.specs.Words.{Asks, AreFaulty, session_words};

/// Words that ask for a command ask for nothing else.
pub fn commands_are_alone()
    ensures { (words : List Text) (command : Command) (asked : Asked)
        → Asks words (Do command) → Asks words asked → asked ≡ Do command }
{}

/// No words at all ask for nothing.
pub fn no_words_ask_for_nothing()
    ensures { AreFaulty [] }
{}

/// The words of a session in memory ask for it.
pub fn session_is_asked()
    ensures { Asks session_words (Do (Session (codes ":memory:"))) }
{}
