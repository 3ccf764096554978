//! The words of a run.
ghost use Rattle.std.specs.Prelude.{◌≡◌, IfOk, map, option_map, encode_utf8_all};
ghost use Rattle.clap.specs.Words.{first_of, found_of, rows_of};
ghost use Rattle.clap.specs.Walk.{texts};
ghost use Rattle.ng_words.specs.Words.{files_named, is_file_name, is_set as is_set_of, name_of, together as together_of, words_of};
ghost use Rattle.ng_words.specs.WordsOf.{flags_seen, words_seen};

use crate::command::command;
use clap::ArgMatches;
use clap::error::ErrorKind;
use ng_base::fault::Memory;
use ng_base::reader::Plain;
use ng_base::txt::Txt;
use std::alloc::{AllocError, Global};

/// The flags of a run.
#[derive(Clone, Copy)]
pub struct Flags {
    pub trace: bool,
    pub is_static: bool,
}

/// What the words ask for: flags, and the names of a template, of an application, and of a script where one is given.
#[derive(Drop)]
pub struct Words {
    pub flags: Flags,
    pub template: Txt,
    pub application: Txt,
    pub script: Option<Txt>,
}

/// Whether a word is a file's name.
fn names_file(word: &Txt) -> bool
    ensures { result ≡ is_file_name word.now }
{
    let reader = Plain::new(word.as_str());
    match reader.first() {
        None => true,
        Some((c, _)) => c != '-',
    }
}

/// The first text of a part, where it has one.
fn text_of<'a>(matches: &ArgMatches<'a>, id: &str) -> Option<&'a str>
    ensures { option_map (λ s. s.now) result ≡ first_of id.now (rows_of (found_of matches.now)) }
{
    matches.get_str(id)
}

/// Whether a flag is set.
fn is_set(matches: &ArgMatches<'_>, id: &str) -> bool
    ensures { result ≡ is_set_of id.now (rows_of (found_of matches.now)) }
{
    match text_of(matches, id) {
        None => false,
        Some(text) => text == "true",
    }
}

/// The name that a part tells.
fn name(alloc: Global, matches: &ArgMatches<'_>, id: &str) -> Result<Option<Txt>, AllocError>
    ensures { IfOk result (λ n. n ≡ name_of id.now (rows_of (found_of matches.now))) }
{
    match text_of(matches, id) {
        None => Ok(None),
        Some(text) => Ok(Some(Txt::from_str(alloc, text)?)),
    }
}

/// All that a run needs, where a template and an application are named, and all names are names of files.
fn with_files(
    flags: Flags,
    template: Option<Txt>,
    application: Option<Txt>,
    script: Option<Txt>,
) -> Option<Words>
    ensures { option_map words_seen result ≡ files_named (flags_seen flags) template application script }
{
    let template = template?;
    let application = application?;
    let is_named = match &script {
        None => true,
        Some(name) => names_file(name),
    };
    if names_file(&template) && names_file(&application) && is_named {
        Some(Words {
            flags,
            template,
            application,
            script,
        })
    } else {
        None
    }
}

/// What the parts ask for, where they stand together.
fn together(alloc: Global, matches: &ArgMatches<'_>) -> Result<Option<Words>, AllocError>
    ensures { IfOk result (λ w. option_map words_seen w ≡ together_of (rows_of (found_of matches.now))) }
{
    if is_set(matches, "patches") || text_of(matches, "load").is_some() {
        return Ok(None);
    }
    let flags = Flags {
        trace: is_set(matches, "trace"),
        is_static: is_set(matches, "static"),
    };
    let template = name(alloc, matches, "template")?;
    let application = name(alloc, matches, "application")?;
    let script = name(alloc, matches, "script")?;
    Ok(with_files(flags, template, application, script))
}

/// The words as `clap` takes them.
fn texts_of(alloc: Global, words: &[Txt]) -> Result<Vec<&str>, AllocError>
    ensures { IfOk result (λ v. texts v.items ≡ map encode_utf8_all words.now) }
{
    let mut texts = Vec::new(alloc);
    for word in words {
        texts.push(word.as_str())?;
    }
    Ok(texts)
}

/// The words of a run, where they are of the form.
pub fn read_words(alloc: Global, words: &[Txt]) -> Result<Option<Words>, Memory>
    ensures { IfOk result (λ w. option_map words_seen w ≡ words_of words.now) }
{
    let texts = texts_of(alloc, words)?;
    let command = command(alloc)?;
    match command.try_get_matches_from(texts.as_slice()) {
        Ok(matches) => Ok(together(alloc, &matches)?),
        Err(error) => match error.kind() {
            ErrorKind::OutOfMemory => Err(Memory::Refused),
            _ => Ok(None),
        },
    }
}
