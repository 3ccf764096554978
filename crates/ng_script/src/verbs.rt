//! The words that commands begin with, and the events that they fire.
ghost use Rattle.std.specs.Prelude.{◌≡◌, codes};
ghost use Rattle.std.specs.Str.{chars, bytes_eq};
ghost use Rattle.ng_script.specs.Verbs.{verb_named, is_event as is_event_name, flag_named};
ghost use Rattle.ng_script.specs.Words.{word, next_part};

use crate::cut::next_word;

/// What a command does. `Typed` is the command `type`.
#[derive(Clone, Copy, Debug, PartialEq, Eq)]
pub enum Verb {
    Click,
    Fire,
    Typed,
    Check,
    Eval,
    At,
    Emit,
    Broadcast,
    Async,
    Probe,
    Destroy,
    Digest,
}

/// The command of a name.
fn named_verb(word: &str) -> Option<Verb>
    ensures { result ≡ verb_named word.now }
{
    match word {
        "click" => Some(Verb::Click),
        "fire" => Some(Verb::Fire),
        "type" => Some(Verb::Typed),
        "check" => Some(Verb::Check),
        "eval" => Some(Verb::Eval),
        "at" => Some(Verb::At),
        "emit" => Some(Verb::Emit),
        "broadcast" => Some(Verb::Broadcast),
        "async" => Some(Verb::Async),
        "probe" => Some(Verb::Probe),
        "destroy" => Some(Verb::Destroy),
        "digest" => Some(Verb::Digest),
        _ => None,
    }
}

/// The command that a word names.
fn verb_of(word: &str) -> Option<Verb>
    ensures { result ≡ verb_named (chars word.now) }
{
    named_verb(word)
}

/// Whether it is the name of an event.
fn names_event(word: &str) -> bool
    ensures { result ≡ is_event_name word.now }
{
    match word {
        "click" => true,
        "dblclick" => true,
        "mousedown" => true,
        "mouseup" => true,
        "mouseover" => true,
        "mouseout" => true,
        "mousemove" => true,
        "mouseenter" => true,
        "mouseleave" => true,
        "keydown" => true,
        "keyup" => true,
        "keypress" => true,
        "submit" => true,
        "focus" => true,
        "blur" => true,
        "copy" => true,
        "cut" => true,
        "paste" => true,
        _ => false,
    }
}

/// Which of the two truth values it names.
fn named_flag(word: &str) -> Option<bool>
    ensures { result ≡ flag_named word.now }
{
    match word {
        "true" => Some(true),
        "false" => Some(false),
        _ => None,
    }
}

/// The command that a line begins with, and what stands after its word.
pub fn next_verb(text: &str) -> (Option<Verb>, &str)
    ensures verb { result.0 ≡ verb_named (word (chars text.now)) }
    ensures rest { chars result.1.now ≡ next_part (chars text.now) }
{
    let (word, rest) = next_word(text);
    (verb_of(word), rest)
}

/// Whether a word is the name of an event.
pub fn is_event(word: &str) -> bool
    ensures { result ≡ is_event_name (chars word.now) }
{
    names_event(word)
}

/// Whether a word is `root`.
pub fn is_root(word: &str) -> bool
    ensures { result ≡ bytes_eq (chars word.now) (codes "root") }
{
    word == "root"
}

/// Whether a word is `true` or `false`, and which.
pub fn flag_of(word: &str) -> Option<bool>
    ensures { result ≡ flag_named (chars word.now) }
{
    named_flag(word)
}
