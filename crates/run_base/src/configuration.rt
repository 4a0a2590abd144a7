//! Reading a configuration from its file.

ghost use Rattle.std.specs.Prelude.{◌≡◌, ℕ, List, IfErr, IfOk};
ghost use Rattle.run_base.specs.Change.{files_change};
ghost use Rattle.run_base.specs.Configurations.{ReadsConf, ReadsNone};

use crate::error::CommandError;
use std::alloc::Global;
use vt_base::Text;
use vt_conf::{Conf, ConfBad, ConfCause, ConfErr, MAX_CONF, parse_conf};
use vt_out::{Files, OutErr};

/// Reads the configuration in the file of this name, of which 65,537 bytes are read at most.
pub fn read_conf<I: Files>(alloc: Global, files: &mut I, file: &Text) -> Result<Conf, CommandError>
    ensures said { IfOk result (λ conf.
        ReadsConf file.now conf (files_change I.Files files.old files.new)) }
    ensures refused { IfErr result (λ failure.
        ReadsNone file.now failure (files_change I.Files files.old files.new)) }
    ensures same { (name : List ℕ) → I.content files.new name ≡ I.content files.old name }
{
    let text = match files.read(alloc, file, MAX_CONF as u32) {
        Ok(text) => text,
        Err(OutErr::Failed) => return Err(CommandError::FileFault),
        Err(OutErr::NoMemory) => return Err(CommandError::NoMemory),
    };
    if text.as_slice().len() > MAX_CONF {
        return Err(CommandError::BadConf(ConfBad {
            line: 0,
            why: ConfCause::TooLong,
        }));
    }
    match parse_conf(alloc, text.as_slice()) {
        Ok(conf) => Ok(conf),
        Err(ConfErr::Bad(bad)) => Err(CommandError::BadConf(bad)),
        Err(ConfErr::NoMemory) => Err(CommandError::NoMemory),
    }
}
