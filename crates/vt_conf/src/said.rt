//! The settings of a configuration, and what they come to.

ghost use Rattle.std.specs.Prelude.{◌≡◌, true, find, length, map, IfOk};
ghost use Rattle.std.specs.Option.{option_copied};
ghost use Rattle.vt_conf.specs.Configuration.{ComeTo, said, file_of, name_in, IsSizeIn, IsAddressIn};
ghost use Rattle.vt_conf.specs.Configuration.{first_part_file, is_of};
ghost use Rattle.vt_conf.specs.Keywords.{takes_size};
ghost use Rattle.vt_conf.specs.Parsing.{HaveValues};

use crate::conf::{Conf, DEFAULT_ICMEM, DEFAULT_MEM, PartFile};
use crate::setting::Setting;
use crate::{Address, Keyword, VENTI_PORT, parse_address, parse_size};
use std::alloc::{AllocError, Global};
use vt_base::Text;

/// The configuration that these settings come to, with defaults for what they leave out.
pub(crate) fn conf_of(alloc: Global, settings: &[Setting]) -> Result<Conf, AllocError>
    requires { HaveValues settings.now }
    ensures { IfOk result (ComeTo settings.now) }
{
    Ok(Conf {
        index: name_in(alloc, settings)?,
        arenas: files_of(alloc, settings, Keyword::Arenas)?,
        sections: files_of(alloc, settings, Keyword::Isect)?,
        filter: first_file(alloc, settings, Keyword::Bloom)?,
        mem: size_in(settings, Keyword::Mem, DEFAULT_MEM),
        icmem: size_in(settings, Keyword::Icmem, DEFAULT_ICMEM),
        addr: address_in(alloc, settings)?,
    })
}

/// How many settings a keyword has.
pub(crate) fn count(settings: &[Setting], keyword: Keyword) -> usize
    ensures { result ≡ length (said keyword settings.now) }
{
    settings.iter().filter(|s| s.keyword.is(keyword)).count()
}

/// The first setting of a keyword.
fn first(settings: &[Setting], keyword: Keyword) -> Option<&Setting>
    ensures { option_copied result ≡ find (is_of keyword) settings.now }
{
    settings.iter().find(|s| s.keyword.is(keyword))
}

/// The files that the settings of a keyword name, in order.
fn files_of(
    alloc: Global,
    settings: &[Setting],
    keyword: Keyword,
) -> Result<Vec<PartFile>, AllocError>
    ensures { IfOk result (λ files. files.items ≡ map file_of (said keyword settings.now)) }
{
    let mut files = Vec::new(alloc);
    for setting in settings {
        if setting.keyword.is(keyword) {
            files.push(file_of(alloc, setting)?)?;
        }
    }
    Ok(files)
}

/// The file that the first setting of a keyword names.
fn first_file(
    alloc: Global,
    settings: &[Setting],
    keyword: Keyword,
) -> Result<Option<PartFile>, AllocError>
    ensures { IfOk result (λ file. file
        ≡ first_part_file (map file_of (said keyword settings.now))) }
{
    match first(settings, keyword) {
        Some(setting) => Ok(Some(file_of(alloc, setting)?)),
        None => Ok(None),
    }
}

/// The file that a setting names.
fn file_of(alloc: Global, setting: &Setting) -> Result<PartFile, AllocError>
    ensures { IfOk result (λ file. file ≡ file_of setting.now) }
{
    let name = Text::copy_of(alloc, setting.value.as_slice())?;
    Ok(PartFile {
        name,
        line: setting.line,
    })
}

/// The name of the index: the first that is set, or `main`.
fn name_in(alloc: Global, settings: &[Setting]) -> Result<Text, AllocError>
    ensures { IfOk result (λ name. name ≡ name_in (said Keyword.Index settings.now)) }
{
    match first(settings, Keyword::Index) {
        Some(setting) => Text::copy_of(alloc, setting.value.as_slice()),
        None => Text::copy_of(alloc, b"main"),
    }
}

/// The size that the settings of a keyword say, or the default where they say none.
fn size_in(settings: &[Setting], keyword: Keyword, default: u64) -> u64
    requires values { HaveValues settings.now }
    requires size { takes_size keyword ≡ true }
    ensures { IsSizeIn result default (said keyword settings.now) }
{
    match first(settings, keyword) {
        Some(setting) => parse_size(setting.value.as_slice()).unwrap_or(default),
        None => default,
    }
}

/// The address that the settings say.
fn address_in(alloc: Global, settings: &[Setting]) -> Result<Address, AllocError>
    requires { HaveValues settings.now }
    ensures { IfOk result (λ address. IsAddressIn address (said Keyword.Addr settings.now)) }
{
    let everywhere = Address {
        host: None,
        port: VENTI_PORT,
    };
    match first(settings, Keyword::Addr) {
        Some(setting) => {
            let address = parse_address(alloc, setting.value.as_slice())?;
            Ok(address.unwrap_or(everywhere))
        }
        None => Ok(everywhere),
    }
}
