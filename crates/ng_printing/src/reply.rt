//! What a run is to write.
use ng_page::page::Page;
use ng_script::Commands;
use ng_words::words::Flags;

/// What a step prints, and whether none of its lines tells of a fault, of a digest that failed, or of a target that stands nowhere.
#[derive(Drop)]
pub struct Lines {
    pub piece: Vec<u8>,
    pub well: bool,
}

/// A page that was opened, with its first step, and the commands that are to be done on it.
#[derive(Drop)]
pub struct Opened {
    pub page: Page,
    pub step: Lines,
    pub commands: Commands,
    pub flags: Flags,
}

/// The reply to the words of a run: a status and a line, or a page.
#[derive(Drop)]
pub enum Reply {
    Line(u8, Vec<u8>),
    Page(Opened),
}
