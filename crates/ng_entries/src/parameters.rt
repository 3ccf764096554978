//! The parameters of a function, as they are written.
ghost use Rattle.std.specs.List.{list_all};
ghost use Rattle.std.specs.Prelude.{◌≡◌, [], Some, option_map, IfOk};
ghost use Rattle.serde_json.specs.View.{view, items_view};
ghost use Rattle.ng_language.specs.Letters.{is_in_name};
ghost use Rattle.ng_entries.specs.Entries.{is_name as is_name_of, param_of as param_in, params_after, params_of as params_in};

use crate::members::text_of;
use ng_base::lists::Names;
use ng_base::reader::Plain;
use ng_base::txt::Txt;
use ng_lex::letters::{begins_name, in_name};
use serde_json::Value as Json;
use std::alloc::{AllocError, Global};

/// Whether the characters that are left go on a name.
fn goes_on(mut reader: Plain<'_>) -> bool
    ensures { result ≡ list_all is_in_name reader.entry }
{
    while let Some((c, rest)) = reader.first() {
        if !in_name(c) {
            return false;
        }
        reader = rest;
    }
    true
}

/// Whether a text is a name of the expression language.
fn is_name(name: &Txt) -> bool
    ensures { result ≡ is_name_of name.now }
{
    match Plain::new(name.as_str()).first() {
        None => false,
        Some((c, rest)) => { if begins_name(c) { goes_on(rest) } else { false } }
    }
}

/// The name of a parameter.
fn param_of(alloc: Global, value: &Json) -> Result<Option<Txt>, AllocError>
    ensures { IfOk result (λ n. n ≡ param_in (view value.now)) }
{
    match text_of(alloc, value)? {
        None => Ok(None),
        Some(name) => {
            if is_name(&name) {
                Ok(Some(name))
            } else {
                Ok(None)
            }
        }
    }
}

/// The names of parameters.
fn params_from(alloc: Global, items: &[Json]) -> Result<Option<Names>, AllocError>
    ensures { IfOk result (λ ps. ps ≡ params_after [] (items_view items.now)) }
{
    let mut names = Names::new(alloc);
    for item in items {
        match param_of(alloc, item)? {
            None => return Ok(None),
            Some(name) => names.push(name)?,
        }
    }
    Ok(Some(names))
}

/// The names of parameters, which may be missing.
pub(crate) fn params_of(alloc: Global, value: Option<&Json>) -> Result<Option<Names>, AllocError>
    ensures { IfOk result (λ ps. ps ≡ params_in (option_map (λ v. view v.now) value.entry)) }
{
    match value {
        None => Ok(Some(Names::new(alloc))),
        Some(Json::Array(items)) => params_from(alloc, items.as_slice()),
        Some(_) => Ok(None),
    }
}
