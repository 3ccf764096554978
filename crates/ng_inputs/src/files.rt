//! The files of a run, and their fetches.
ghost use Rattle.std.specs.Prelude.{◌≡◌, ◌≢◌, ◌++◌, ◌∷◌, [], IfOk, List, ℕ, map};
ghost use Rattle.ng_inputs.specs.Files.{Brings, Fetches, files_of, first_role as first_role_of, no_inputs, role_name, with_file};
ghost use Rattle.ng_inputs.specs.InputsOf.{fetched_of, file_of, got_of, inputs_of};
ghost use Rattle.ng_words.specs.WordsOf.{words_seen};

use ng_base::fault::{Memory, ShelfFault};
use ng_base::outside::Shelf;
use ng_base::txt::Txt;
use ng_words::words::Words;
use std::alloc::{AllocError, Global};

/// What a file of a run is.
#[derive(Clone, Copy)]
pub enum Role {
    Template,
    Application,
    Script,
}

/// A file by its name.
#[derive(Clone, Copy)]
pub struct File<'a> {
    pub role: Role,
    pub name: &'a Txt,
}

/// The bytes of a run's files. A script that isn't given is empty.
#[derive(Drop)]
pub struct Inputs {
    pub template: Vec<u8>,
    pub application: Vec<u8>,
    pub script: Vec<u8>,
}

/// What a fetch brought.
#[derive(Drop)]
pub(crate) enum Got {
    Failed,
    TooLong(u64),
    Bytes(Vec<u8>),
}

/// What the fetches of all files brought: their bytes, or the first file that didn't come.
#[derive(Drop)]
pub enum Fetched<'a> {
    Brought(Inputs),
    Unread(File<'a>),
    Overlong(Role, u64),
}

impl Role {
    /// Its name in a line.
    pub fn name(&self) -> &'static str
        ensures { result.now ≡ role_name self.now }
    {
        match self {
            Role::Template => "template",
            Role::Application => "application",
            Role::Script => "script",
        }
    }
}

impl Inputs {
    /// No file.
    fn new(alloc: Global) -> Inputs
        ensures { inputs_of result ≡ no_inputs }
    {
        Inputs {
            template: Vec::new(alloc),
            application: Vec::new(alloc),
            script: Vec::new(alloc),
        }
    }

    /// The same with the bytes of a file.
    fn with(self, role: Role, bytes: Vec<u8>) -> Inputs
        ensures { inputs_of result ≡ with_file role bytes.items (inputs_of self) }
    {
        let Inputs {
            template,
            application,
            script,
        } = self;
        match role {
            Role::Template => Inputs {
                template: bytes,
                application,
                script,
            },
            Role::Application => Inputs {
                template,
                application: bytes,
                script,
            },
            Role::Script => Inputs {
                template,
                application,
                script: bytes,
            },
        }
    }
}

/// The files of these words, in the order of fetching.
pub fn files_in<'a>(alloc: Global, words: &'a Words) -> Result<Vec<File<'a>>, AllocError>
    ensures { IfOk result (λ v. map file_of v.items ≡ files_of (words_seen words.now)) }
{
    let mut files = Vec::new(alloc);
    files.push(File {
        role: Role::Template,
        name: &words.template,
    })?;
    files.push(File {
        role: Role::Application,
        name: &words.application,
    })?;
    if let Some(name) = &words.script {
        files.push(File {
            role: Role::Script,
            name,
        })?;
    }
    Ok(files)
}

/// The role of the first file that has a name, or else this one.
pub fn first_role(name: &Txt, files: &[File<'_>], role: Role) -> Role
    ensures { result ≡ first_role_of name.now (map file_of files.now) role }
{
    for file in files {
        if name.same(file.name) {
            return file.role;
        }
    }
    role
}

/// Fetches a file.
fn fetch<S: Shelf>(alloc: Global, shelf: &mut S, name: &Txt) -> Result<Got, Memory>
    ensures brings { IfOk result (λ g. Brings (S.bytes shelf.old name.now) (got_of g)) }
    ensures failed { IfOk result (λ g. (g ≡ Got.Failed) → S.failed shelf.new ≡ S.failed shelf.old ++ name.now ∷ []) }
    ensures other { IfOk result (λ g. (g ≢ Got.Failed) → S.failed shelf.new ≡ S.failed shelf.old) }
    ensures same { (n : List ℕ) → S.bytes shelf.new n ≡ S.bytes shelf.old n }
{
    let mut bytes = Vec::new(alloc);
    match shelf.fetch(name.as_str(), &mut bytes) {
        Ok(()) => Ok(Got::Bytes(bytes)),
        Err(ShelfFault::Failed) => Ok(Got::Failed),
        Err(ShelfFault::TooLong(length)) => Ok(Got::TooLong(length)),
        Err(ShelfFault::Memory(memory)) => Err(memory),
    }
}

/// Fetches files in their order, up to the first that doesn't come.
pub fn fetch_all<'a, S: Shelf>(
    alloc: Global,
    shelf: &mut S,
    files: &[File<'a>],
) -> Result<Fetched<'a>, Memory>
    ensures { IfOk result (λ end. Fetches (S.bytes shelf.old) no_inputs (map file_of files.now) (S.failed shelf.old) (S.failed shelf.new) (fetched_of end)) }
{
    let mut inputs = Inputs::new(alloc);
    for file in files {
        match fetch(alloc, shelf, file.name)? {
            Got::Failed => return Ok(Fetched::Unread(*file)),
            Got::TooLong(length) => return Ok(Fetched::Overlong(file.role, length)),
            Got::Bytes(bytes) => inputs = inputs.with(file.role, bytes),
        }
    }
    Ok(Fetched::Brought(inputs))
}
