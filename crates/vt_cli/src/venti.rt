//! The program's command line, and what its help says.

ghost use Rattle.std.specs.Prelude.{◌≡◌, false, codes, IfOk};
ghost use Rattle.clap.specs.Simple.{on_top};
ghost use Rattle.clap.specs.Words.{App, app_of, new_app, shape_of, with_subcommand};
ghost use Rattle.clap.specs.declared.builder.command.Command.TheViews.{out-Command as fields_of};
ghost use Rattle.vt_cli.specs.Words.{with_settings, with_word, venti};
ghost use Rattle.vt_cli.specs.Words.{session, fmtarenas, fmtisect, fmtbloom, fmtindex, read, write, rehearse};
ghost use Rattle.vt_cli.specs.Words.{buildindex, checkarenas, vac, vacfs, with_size};

use clap::{Arg, Command};
use std::alloc::{AllocError, Global};

/// The version, and the toolchain that the program is proved with, as `rt version` has it.
const VERSION: &str = "\
0.1.0
proved with rattle-kit-13f logic dac8208d650f15bf";

/// What help tells behind the commands.
const EXAMPLE: &str = "\
A store of one partition of arenas and one index section, made in a new folder:

  mkdir store && printf 'arenas store/arenas\\nisect store/isect\\n' > store/venti.conf
  venti fmtarenas store/arenas a0 1073750016 67108864
  venti fmtisect store/isect i0 134217728
  venti fmtindex store/venti.conf

A block of it, whose score is printed, and which is read again:

  printf abc | venti write store/venti.conf 13
  venti read store/venti.conf a9993e364706816aba3e25717850c26c9cd0d89d 13

A folder that is archived in it, whose score is printed; by it a client of 9P2000 is shown the archive:

  venti vac store/venti.conf home
  venti vacfs store/venti.conf SCORE

Its index, built again from its arenas, and these, checked:

  venti buildindex store/venti.conf
  venti checkarenas store/venti.conf

A session in memory, which is spoken on the standard streams:

  venti session :memory: < samples/abc.venti | od -An -tx1";

/// The program, with each of its commands.
pub(crate) fn venti<'a>(alloc: Global) -> Result<Command<'a>, AllocError>
    ensures { IfOk result (λ it. app_of it ≡ venti) }
{
    let program = program(alloc).bin_name("venti");
    let program = with_command(program, session(alloc));
    let program = with_command(program, fmtarenas(alloc));
    let program = with_command(program, fmtisect(alloc));
    let program = with_command(program, fmtbloom(alloc));
    let program = with_command(program, fmtindex(alloc));
    let program = with_command(program, buildindex(alloc));
    let program = with_command(program, checkarenas(alloc));
    let program = with_command(program, read(alloc));
    let program = with_command(program, write(alloc));
    let program = with_command(program, rehearse(alloc));
    let program = with_command(program, vac(alloc));
    with_command(program, vacfs(alloc))
}

/// The program without its commands.
fn program<'a>(alloc: Global) -> Command<'a>
    ensures { app_of result ≡ on_top with_settings (new_app (codes "venti")) }
{
    Command::new(alloc, "venti")
        .about("A write-once store of blocks, each found by the SHA-1 score of its bytes")
        .version(VERSION)
        .after_help(EXAMPLE)
        .no_binary_name(true)
        .disable_help_subcommand(true)
        .subcommand_required(true)
        .arg_required_else_help(true)
}

/// The program with one more command, where there was memory for both.
fn with_command<'a>(
    program: Result<Command<'a>, AllocError>,
    command: Result<Command<'a>, AllocError>,
) -> Result<Command<'a>, AllocError>
    requires local { IfOk command (λ it. (fields_of it).has_globals ≡ false) }
    ensures { (app sub : App) → IfOk program.entry (λ it. app_of it ≡ app)
        → IfOk command.entry (λ it. app_of it ≡ sub)
        → IfOk result (λ it. app_of it ≡ with_subcommand app sub.top) }
{
    let Ok(program) = program else {
        return Err(AllocError);
    };
    let Ok(command) = command else {
        return Err(AllocError);
    };
    add(program, command)
}

/// The program with one more command.
fn add<'a>(program: Command<'a>, command: Command<'a>) -> Result<Command<'a>, AllocError>
    requires local { (fields_of command).has_globals ≡ false }
    ensures { IfOk result (λ it. app_of it ≡ with_subcommand (app_of program.entry)
        (shape_of command.entry)) }
{
    program.subcommand(command)
}

/// The command with one more word that it wants.
fn with_word<'a>(
    alloc: Global,
    command: Command<'a>,
    id: &'a str,
    help: &'a str,
) -> Result<Command<'a>, AllocError>
    ensures app { IfOk result (λ it. app_of it ≡ with_word (app_of command.entry) id.now) }
    ensures local { IfOk result (λ it.
        (fields_of it).has_globals ≡ (fields_of command.entry).has_globals) }
{
    command.arg(Arg::new(alloc, id).required(true).help(help))
}

/// The command with a size that may be asked for.
fn with_size<'a>(alloc: Global, command: Command<'a>) -> Result<Command<'a>, AllocError>
    ensures app { IfOk result (λ it. app_of it ≡ with_size (app_of command.entry)) }
    ensures local { IfOk result (λ it.
        (fields_of it).has_globals ≡ (fields_of command.entry).has_globals) }
{
    let help = "how many bytes a block has at most, from 512 to 53248; else 8192";
    command.arg(Arg::new(alloc, "BSIZE").short('b').help(help))
}

/// A command of no words yet.
fn command_of<'a>(alloc: Global, name: &'a str, about: &'a str) -> Command<'a>
    ensures app { app_of result ≡ new_app name.now }
    ensures local { (fields_of result).has_globals ≡ false }
{
    Command::new(alloc, name).about(about)
}

/// What clap takes for `session STORE`, and what its help says.
fn session<'a>(alloc: Global) -> Result<Command<'a>, AllocError>
    ensures app { IfOk result (λ it. app_of it ≡ session) }
    ensures local { IfOk result (λ it. (fields_of it).has_globals ≡ false) }
{
    let about = "Answers one session of the protocol on the standard streams";
    let command = command_of(alloc, "session", about);
    with_word(
        alloc,
        command,
        "STORE",
        "the file of a configuration, or :memory: for a store in memory that begins empty",
    )
}

/// What help says of the word FILE of the commands that format.
const FILE: &str = "the file, which is made, or grown, where that is needed";

/// What help says of the word NAME.
const NAME: &str = "1 to 64 letters, digits, '.', '-' and '_'";

/// What help says of the word LENGTH.
const LENGTH: &str = "how many bytes the file has at least";

/// The command with the words of a partition that it makes of a file.
fn with_partition<'a>(alloc: Global, command: Command<'a>) -> Result<Command<'a>, AllocError>
    ensures app { IfOk result (λ it. app_of it ≡ with_word (with_word (with_word
        (app_of command.entry) (codes "FILE")) (codes "NAME")) (codes "LENGTH")) }
    ensures local { IfOk result (λ it.
        (fields_of it).has_globals ≡ (fields_of command.entry).has_globals) }
{
    let command = with_word(alloc, command, "FILE", FILE)?;
    let command = with_word(alloc, command, "NAME", NAME)?;
    with_word(alloc, command, "LENGTH", LENGTH)
}

/// What clap takes for `fmtarenas FILE NAME LENGTH ARENASIZE`, and what its help says.
fn fmtarenas<'a>(alloc: Global) -> Result<Command<'a>, AllocError>
    ensures app { IfOk result (λ it. app_of it ≡ fmtarenas) }
    ensures local { IfOk result (λ it. (fields_of it).has_globals ≡ false) }
{
    let about = "Makes a file a partition of arenas, which hold the blocks, and wipes what it held";
    let size = "how many bytes each arena has, a multiple of 8192";
    let command = with_partition(alloc, command_of(alloc, "fmtarenas", about))?;
    with_word(alloc, command, "ARENASIZE", size)
}

/// What clap takes for `fmtisect FILE NAME LENGTH`, and what its help says.
fn fmtisect<'a>(alloc: Global) -> Result<Command<'a>, AllocError>
    ensures app { IfOk result (λ it. app_of it ≡ fmtisect) }
    ensures local { IfOk result (λ it. (fields_of it).has_globals ≡ false) }
{
    let about = "Makes a file a section of the index, and wipes what it held";
    with_partition(alloc, command_of(alloc, "fmtisect", about))
}

/// What clap takes for `fmtbloom FILE SIZE POSITIONS`, and what its help says.
fn fmtbloom<'a>(alloc: Global) -> Result<Command<'a>, AllocError>
    ensures app { IfOk result (λ it. app_of it ≡ fmtbloom) }
    ensures local { IfOk result (λ it. (fields_of it).has_globals ≡ false) }
{
    let about = "Makes a file the Bloom filter of a store, and wipes what it held";
    let size = "how many bytes the filter has, a power of two";
    let command = command_of(alloc, "fmtbloom", about);
    let command = with_word(alloc, command, "FILE", FILE)?;
    let command = with_word(alloc, command, "SIZE", size)?;
    with_word(
        alloc,
        command,
        "POSITIONS",
        "how many bits each score has, from 1 to 32",
    )
}

/// What help says of the word CONF.
const CONF: &str =
    "the configuration, a line for each partition: 'arenas FILE', 'isect FILE', 'bloom FILE'";

/// What clap takes for `fmtindex CONF`, and what its help says.
fn fmtindex<'a>(alloc: Global) -> Result<Command<'a>, AllocError>
    ensures app { IfOk result (λ it. app_of it ≡ fmtindex) }
    ensures local { IfOk result (λ it. (fields_of it).has_globals ≡ false) }
{
    let about = "Puts the index sections that a configuration names to use, without entries";
    let command = command_of(alloc, "fmtindex", about);
    with_word(alloc, command, "CONF", CONF)
}

/// What clap takes for `buildindex CONF`, and what its help says.
fn buildindex<'a>(alloc: Global) -> Result<Command<'a>, AllocError>
    ensures app { IfOk result (λ it. app_of it ≡ buildindex) }
    ensures local { IfOk result (λ it. (fields_of it).has_globals ≡ false) }
{
    let about = "Rebuilds the index of a store from its arenas, whatever its sections hold";
    let command = command_of(alloc, "buildindex", about);
    with_word(alloc, command, "CONF", CONF)
}

/// What clap takes for `checkarenas CONF`, and what its help says.
fn checkarenas<'a>(alloc: Global) -> Result<Command<'a>, AllocError>
    ensures app { IfOk result (λ it. app_of it ≡ checkarenas) }
    ensures local { IfOk result (λ it. (fields_of it).has_globals ≡ false) }
{
    let about = "Checks the arenas of a store, with each of their blocks, and writes nothing";
    let command = command_of(alloc, "checkarenas", about);
    with_word(alloc, command, "CONF", CONF)
}

/// What help says of the word STORE of `read`, `write` and `vacfs`.
const STORE: &str = "the file of a configuration, a server's address as tcp!HOST!PORT, or :memory:";

/// What help says of the word TYPE.
const TYPE: &str = "the number of the block's type: 13 for data";

/// What clap takes for `read STORE SCORE TYPE`, and what its help says.
fn read<'a>(alloc: Global) -> Result<Command<'a>, AllocError>
    ensures app { IfOk result (λ it. app_of it ≡ read) }
    ensures local { IfOk result (λ it. (fields_of it).has_globals ≡ false) }
{
    let about = "Prints the block of a score and a type";
    let command = command_of(alloc, "read", about);
    let command = with_word(alloc, command, "STORE", STORE)?;
    let command = with_word(alloc, command, "SCORE", "the 40 digits of its score")?;
    with_word(alloc, command, "TYPE", TYPE)
}

/// What clap takes for `write STORE TYPE`, and what its help says.
fn write<'a>(alloc: Global) -> Result<Command<'a>, AllocError>
    ensures app { IfOk result (λ it. app_of it ≡ write) }
    ensures local { IfOk result (λ it. (fields_of it).has_globals ≡ false) }
{
    let about = "Stores what comes in as one block, and prints its score";
    let command = command_of(alloc, "write", about);
    let command = with_word(alloc, command, "STORE", STORE)?;
    with_word(alloc, command, "TYPE", TYPE)
}

// (a command stands in five places: docs/CONTRIBUTING.md, "To add a command")
fn rehearse<'a>(alloc: Global) -> Result<Command<'a>, AllocError>
    ensures app { IfOk result (λ it. app_of it ≡ rehearse) }
    ensures local { IfOk result (λ it. (fields_of it).has_globals ≡ false) }
{
    let about = "Rehearses crashes of a store in memory, by rounds that are drawn from a number";
    let command = command_of(alloc, "rehearse", about);
    let command = with_word(alloc, command, "SEED", "the number, below 2^63")?;
    with_word(
        alloc,
        command,
        "COUNT",
        "how many rounds there are, below 2^32",
    )
}

/// What clap takes for `vac STORE FOLDER`, with the size of its blocks as an option, and what its
/// help says.
fn vac<'a>(alloc: Global) -> Result<Command<'a>, AllocError>
    ensures app { IfOk result (λ it. app_of it ≡ vac) }
    ensures local { IfOk result (λ it. (fields_of it).has_globals ≡ false) }
{
    let about = "Stores a folder with all that is in it, and prints the score of that";
    let command = command_of(alloc, "vac", about);
    let command = with_word(
        alloc,
        command,
        "STORE",
        "the file of a configuration, or a server's address as tcp!HOST!PORT",
    )?;
    let command = with_word(
        alloc,
        command,
        "FOLDER",
        "the folder, of which no link is followed",
    )?;
    with_size(alloc, command)
}

/// What clap takes for `vacfs STORE SCORE`, and what its help says.
fn vacfs<'a>(alloc: Global) -> Result<Command<'a>, AllocError>
    ensures app { IfOk result (λ it. app_of it ≡ vacfs) }
    ensures local { IfOk result (λ it. (fields_of it).has_globals ≡ false) }
{
    let about = "Shows an archive as files to a client that speaks 9P2000 on the standard streams";
    let command = command_of(alloc, "vacfs", about);
    let command = with_word(alloc, command, "STORE", STORE)?;
    with_word(alloc, command, "SCORE", "the 40 digits of its score")
}
