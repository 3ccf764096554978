//! What a name is to the core: in camel case it is the name of a directive (guide: Directives, "Normalization").
ghost use Rattle.std.specs.Prelude.{◌≡◌, ◌++◌, ◌∷◌, None, IfOk, OnOk};
ghost use Rattle.ng_collect.specs.Names.{is_joiner, after as after_of, after_joiner as after_joiner_of, after_x as after_x_of, after_data as after_data_of, without_prefix as without_prefix_of, past_joiners as past_joiners_of, cased, camel_from, camel as camel_of, directive_name as directive_name_of, begins_upper as begins_upper_of, begins_g as begins_g_of, begins_n as begins_n_of, is_core as is_core_name, begins_on as begins_on_name};

use ng_base::reader::Plain;
use ng_base::txt::Txt;
use std::alloc::{AllocError, Global};

/// Whether it joins the words of a name.
fn joins(c: char) -> bool
    ensures { result ≡ is_joiner c }
{
    c == '-' || c == ':' || c == '_'
}

/// What stands after a character, where that is the first.
fn after<'a>(first: char, name: &Plain<'a>) -> Option<Plain<'a>>
    ensures { result ≡ after_of first name.now }
{
    let (c, rest) = name.first()?;
    if c == first { Some(rest) } else { None }
}

/// What stands after a joiner, where that is the first.
fn after_joiner<'a>(name: &Plain<'a>) -> Option<Plain<'a>>
    ensures { result ≡ after_joiner_of name.now }
{
    let (c, rest) = name.first()?;
    if joins(c) { Some(rest) } else { None }
}

/// What stands after `x` and a joiner.
fn after_x<'a>(name: &Plain<'a>) -> Option<Plain<'a>>
    ensures { result ≡ after_x_of name.now }
{
    let x = after('x', name)?;
    after_joiner(&x)
}

/// What stands after `data` and a joiner.
fn after_data<'a>(name: &Plain<'a>) -> Option<Plain<'a>>
    ensures { result ≡ after_data_of name.now }
{
    let d = after('d', name)?;
    let da = after('a', &d)?;
    let dat = after('t', &da)?;
    let data = after('a', &dat)?;
    after_joiner(&data)
}

/// A name without such a front.
fn without_prefix<'a>(name: Plain<'a>) -> Plain<'a>
    ensures { result ≡ without_prefix_of name.entry }
{
    if let Some(rest) = after_x(&name) {
        return rest;
    }
    match after_data(&name) {
        Some(rest) => rest,
        None => name,
    }
}

/// A name without the joiners at its front.
fn past_joiners<'a>(mut name: Plain<'a>) -> Plain<'a>
    ensures { result ≡ past_joiners_of name.entry }
{
    while let Some((c, rest)) = name.first() {
        if !joins(c) {
            return name;
        }
        name = rest;
    }
    name
}

/// A character of a name in camel case.
fn as_cased(joiner: Option<char>, c: char) -> char
    ensures { result ≡ cased joiner c }
{
    match joiner {
        None => c,
        Some(_) => c.to_ascii_uppercase(),
    }
}

/// Adds a name in camel case after its first character.
fn push_camel(into: &mut Txt, mut name: Plain<'_>) -> Result<(), AllocError>
    ensures { OnOk result (into.new ≡ into.old ++ camel_from None name.entry) }
{
    let mut joiner = None;
    while let Some((c, rest)) = name.first() {
        if joins(c) {
            joiner = Some(c);
        } else {
            into.push(as_cased(joiner, c))?;
            joiner = None;
        }
        name = rest;
    }
    match joiner {
        None => Ok(()),
        Some(c) => into.push(c),
    }
}

/// A name in camel case.
fn camel(alloc: Global, name: Plain<'_>) -> Result<Txt, AllocError>
    ensures { IfOk result (λ t. t ≡ camel_of name.entry) }
{
    let mut text = Txt::new(alloc);
    if let Some((c, rest)) = name.first() {
        text.push(c)?;
        push_camel(&mut text, rest)?;
    }
    Ok(text)
}

/// The name of the directive that a name of an element or an attribute picks.
pub fn directive_name(alloc: Global, name: &Txt) -> Result<Txt, AllocError>
    ensures { IfOk result (λ t. t ≡ directive_name_of name.now) }
{
    camel(
        alloc,
        past_joiners(without_prefix(Plain::new(name.as_str()))),
    )
}

fn begins_upper(name: &Plain<'_>) -> bool
    ensures { result ≡ begins_upper_of name.now }
{
    match name.first() {
        None => false,
        Some((c, _)) => c.is_ascii_uppercase(),
    }
}

fn begins_g(name: &Plain<'_>) -> bool
    ensures { result ≡ begins_g_of name.now }
{
    match name.first() {
        None => false,
        Some((c, rest)) => c == 'g' && begins_upper(&rest),
    }
}

/// Whether a directive's name begins with `ng` and an upper-case letter, as the core's do.
pub fn is_core(name: &Txt) -> bool
    ensures { result ≡ is_core_name name.now }
{
    match Plain::new(name.as_str()).first() {
        None => false,
        Some((c, rest)) => c == 'n' && begins_g(&rest),
    }
}

fn begins_n(name: &Plain<'_>) -> bool
    ensures { result ≡ begins_n_of name.now }
{
    match name.first() {
        None => false,
        Some((c, _)) => c == 'n',
    }
}

/// Whether a name begins with `on`, as those of a browser's events do.
pub(crate) fn begins_on(name: &Txt) -> bool
    ensures { result ≡ begins_on_name name.now }
{
    match Plain::new(name.as_str()).first() {
        None => false,
        Some((c, rest)) => c == 'o' && begins_n(&rest),
    }
}
