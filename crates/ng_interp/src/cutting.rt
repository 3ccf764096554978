//! Texts, cut at their holes.
ghost use Rattle.std.specs.Prelude.{◌≡◌, ◌++◌, ◌∷◌, [], IfOk, OnOk, OnErr, MatchOption};
ghost use Rattle.ng_interp.specs.Cutting.{last_cut, cuts_behind, opened_at, cuts_of};
ghost use Rattle.ng_interp.specs.Pairs.{NoPair, Pair};

use ng_base::reader::Plain;
use ng_base::txt::Txt;
use std::alloc::{AllocError, Global};
use std::marker::Model;

/// Plain words, or the text of a hole and its place in bytes.
#[derive(Drop)]
pub enum Cut {
    Words(Txt),
    Hole(usize, Txt),
}

/// A hole that stands open: its place in bytes, and the plain words before it.
#[derive(Drop)]
pub struct Opened {
    pub place: usize,
    pub before: Txt,
}

/// The cuts of a text, in order.
#[derive(Drop)]
pub struct Cuts {
    items: Vec<Cut>,
}

impl Model for Cuts {
    ghost use Rattle.std.specs.Prelude.{List};
    ghost use Rattle.ng_interp.specs.declared.cutting.Cut.{Cut};

    ghost Value = { List Cut };

    ghost view = { λ c. c.items.items };
}

impl Cuts {
    /// No cut.
    pub fn new(alloc: Global) -> Cuts
        ensures { result ≡ [] }
    {
        Cuts {
            items: Vec::new(alloc),
        }
    }

    /// Adds a cut at the end.
    pub fn push(&mut self, cut: Cut) -> Result<(), AllocError>
        ensures ok { OnOk result (self.new ≡ self.old ++ cut ∷ []) }
        ensures err { OnErr result (self.new ≡ self.old) }
    {
        self.items.push(cut)?;
        Ok(())
    }

    /// The cuts in order.
    pub fn as_slice(&self) -> &[Cut]
        ensures { result.now ≡ self.now }
    {
        self.items.as_slice()
    }
}

/// What stands behind a pair of marks that begins with this character.
fn behind_pair<'a>(inside: bool, c: char, reader: &Plain<'a>) -> Option<Plain<'a>>
    ensures { MatchOption result (NoPair inside c reader.now) (λ rest. Pair inside c reader.now rest) }
{
    let mark = if inside { '}' } else { '{' };
    let (d, rest) = reader.first()?;
    if c == mark && d == c {
        Some(rest)
    } else {
        None
    }
}

/// The last words of a text, where what is open was no hole.
fn last(opened: Option<Opened>, text: Txt) -> Result<Cut, AllocError>
    ensures { IfOk result (λ c. c ≡ last_cut opened text) }
{
    match opened {
        None => Ok(Cut::Words(text)),
        Some(opened) => {
            let mut words = opened.before;
            words.push('{')?;
            words.push('{')?;
            words.push_txt(&text)?;
            Ok(Cut::Words(words))
        }
    }
}

/// A hole opens, or ends, behind this text.
fn turned(
    mut cuts: Cuts,
    opened: Option<Opened>,
    text: Txt,
    place: usize,
) -> Result<(Cuts, Option<Opened>), AllocError>
    ensures cuts { IfOk result (λ r. r.0 ≡ cuts_behind cuts opened text) }
    ensures opened { IfOk result (λ r. r.1 ≡ opened_at place opened text) }
{
    match opened {
        None => Ok((
            cuts,
            Some(Opened {
                place,
                before: text,
            }),
        )),
        Some(opened) => {
            cuts.push(Cut::Words(opened.before))?;
            cuts.push(Cut::Hole(opened.place, text))?;
            Ok((cuts, None))
        }
    }
}

/// Plain words and holes in turn.
pub fn cut_text(alloc: Global, text: &Txt) -> Result<Cuts, AllocError>
    ensures { IfOk result (λ c. c ≡ cuts_of text.now) }
{
    let total = text.as_str().len();
    let mut cuts = Cuts::new(alloc);
    let mut opened = None;
    let mut words = Txt::new(alloc);
    let mut reader = Plain::new(text.as_str());
    while let Some((c, rest)) = reader.first() {
        match behind_pair(opened.is_some(), c, &rest) {
            None => {
                let (run, others) = rest.run();
                words.push(c)?;
                words.push_str(run)?;
                reader = others;
            }
            Some(behind) => {
                let place = total.saturating_sub(behind.left());
                let (more, open) = turned(cuts, opened, words, place)?;
                cuts = more;
                opened = open;
                words = Txt::new(alloc);
                reader = behind;
            }
        }
    }
    cuts.push(last(opened, words)?)?;
    Ok(cuts)
}
