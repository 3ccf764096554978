//! What a body stands for: nothing but itself, an entry of a collection (API: ngRepeat), or the template of a name (API: ngInclude).
ghost use Rattle.std.specs.Prelude.{◌≡◌, ◌∷◌, [], map, MatchOption, IfOk};
ghost use Rattle.ng_base.specs.Views.{views_from, fields_from};
ghost use Rattle.ng_base.specs.ViewOf.{view_of, fields_of, field_of};
ghost use Rattle.ng_language.specs.Unfolding.{is_dollar as begins_with_dollar};
ghost use Rattle.ng_drawing.specs.Roles.{item_entries, named_entries, entries_in as entries_of_view, same_name as same_names, same_entry as same_entries, is_row_of as is_row, are_rows as are_rows_of, is_named_so, is_one_named as is_one_named_of};
ghost use Rattle.ng_drawing.specs.RolesOf.{entry_of, entries_of, role_of};

use crate::classes::parts_in;
use ng_base::fault::Memory;
use ng_base::reader::Plain;
use ng_base::txt::Txt;
use ng_base::view::{Fields, View};
use ng_blocks::TrackKey;
use ng_value::copies::copied;
use ng_value::snapshot::{Snap, differs};
use std::alloc::Global;

/// An entry of a collection: its name, where it is a named value of an object, and what is kept of it.
#[derive(Drop)]
pub struct Entry {
    pub name: Option<Txt>,
    pub value: Snap,
}

/// What a body stands for: nothing but itself; or an entry of a collection, whose row is known by its track key; or the template of a name.
#[derive(Drop)]
pub enum Role {
    Body,
    Row(TrackKey, Entry),
    Named(Txt),
}

/// Whether a name begins with `$`, so that it has no row.
fn is_dollar(name: &Txt) -> bool
    ensures { result ≡ begins_with_dollar name.now }
{
    match Plain::new(name.as_str()).first() {
        None => false,
        Some((c, _)) => c == '$',
    }
}

/// The named views of a record.
#[tactic(auto, using(ng_value::proofs::ViewParts::view_parts))]
fn fields_in(record: &Fields) -> &[(Txt, View)]
    ensures { fields_from (map field_of result.now) ≡ fields_of record.now }
{
    record.as_slice()
}

/// The entries of the items of an array.
fn items_of(alloc: Global, views: &[View]) -> Result<Vec<Entry>, Memory>
    ensures { IfOk result (λ v. entries_of v.items ≡ item_entries (views_from (map view_of views.now))) }
{
    let mut entries = Vec::new(alloc);
    for view in views {
        entries.push(Entry {
            name: None,
            value: Snap::of_view(copied(alloc, view)?),
        })?;
    }
    Ok(entries)
}

/// The entries of the named values of an object.
fn names_of(alloc: Global, fields: &[(Txt, View)]) -> Result<Vec<Entry>, Memory>
    ensures { IfOk result (λ v. entries_of v.items ≡ named_entries (fields_from (map field_of fields.now))) }
{
    let mut entries = Vec::new(alloc);
    for field in fields {
        if !is_dollar(&field.0) {
            entries.push(Entry {
                name: Some(field.0.copied()?),
                value: Snap::of_view(copied(alloc, &field.1)?),
            })?;
        }
    }
    Ok(entries)
}

/// The entries of a collection, of which this is kept.
pub fn entries_in(alloc: Global, view: &View) -> Result<Vec<Entry>, Memory>
    ensures { IfOk result (λ v. entries_of v.items ≡ entries_of_view (view_of view.now)) }
{
    match view {
        View::Prim(_) => Ok(Vec::new(alloc)),
        View::List(list) => items_of(alloc, parts_in(list)),
        View::Rec(record) => names_of(alloc, fields_in(record)),
    }
}

/// Whether two names are the same, or neither is there.
fn same_name(a: &Option<Txt>, b: &Option<Txt>) -> bool
    ensures { result ≡ same_names a.now b.now }
{
    match (a, b) {
        (None, None) => true,
        (Some(a), Some(b)) => a.same(b),
        _ => false,
    }
}

/// Whether two entries are the same.
pub fn same_entry(a: &Entry, b: &Entry) -> bool
    ensures { result ≡ same_entries (entry_of a.now) (entry_of b.now) }
{
    same_name(&a.name, &b.name) && !differs(&a.value, &b.value)
}

/// Whether a body is the row of an entry.
fn is_row_of(entry: &Entry, role: &Role) -> bool
    ensures { result ≡ is_row (entry_of entry.now) (role_of role.now) }
{
    match role {
        Role::Body => false,
        Role::Row(_, row) => same_entry(entry, row),
        Role::Named(_) => false,
    }
}

/// The first entry and the others.
fn first_entry(entries: &[Entry]) -> Option<(&Entry, &[Entry])>
    ensures { MatchOption result (entries.now ≡ []) (λ r. entries.now ≡ r.0.now ∷ r.1.now) }
{
    entries.split_first()
}

/// The first role and the others.
fn first_role(roles: &[Role]) -> Option<(&Role, &[Role])>
    ensures { MatchOption result (roles.now ≡ []) (λ r. roles.now ≡ r.0.now ∷ r.1.now) }
{
    roles.split_first()
}

/// Whether bodies are the rows of entries, in their order.
pub fn are_rows(entries: &[Entry], roles: &[Role]) -> bool
    ensures { result ≡ are_rows_of (entries_of entries.now) (map role_of roles.now) }
{
    let mut left = entries;
    let mut right = roles;
    while let Some((entry, rest)) = first_entry(left) {
        let Some((role, others)) = first_role(right) else {
            return false;
        };
        if !is_row_of(entry, role) {
            return false;
        }
        left = rest;
        right = others;
    }
    right.is_empty()
}

/// Whether a body has the template of a name in it.
fn is_named(name: &Txt, role: &Role) -> bool
    ensures { result ≡ is_named_so name.now (role_of role.now) }
{
    match role {
        Role::Body => false,
        Role::Row(_, _) => false,
        Role::Named(own) => own.same(name),
    }
}

/// Whether there is one body, with the template of a name in it.
pub fn is_one_named(name: &Txt, roles: &[Role]) -> bool
    ensures { result ≡ is_one_named_of name.now (map role_of roles.now) }
{
    match first_role(roles) {
        None => false,
        Some((role, others)) => others.is_empty() && is_named(name, role),
    }
}

impl Entry {
    /// The same entry again.
    pub fn copied(&self, alloc: Global) -> Result<Entry, Memory>
        ensures { IfOk result (λ e. entry_of e ≡ entry_of self.now) }
    {
        let name = match &self.name {
            None => None,
            Some(name) => Some(name.copied()?),
        };
        Ok(Entry {
            name,
            value: Snap::of_view(copied(alloc, self.value.view())?),
        })
    }
}

impl Role {
    /// The same role again.
    pub fn copied(&self, alloc: Global) -> Result<Role, Memory>
        ensures { IfOk result (λ r. role_of r ≡ role_of self.now) }
    {
        match self {
            Role::Body => Ok(Role::Body),
            Role::Row(key, entry) => Ok(Role::Row(key.copied()?, entry.copied(alloc)?)),
            Role::Named(name) => Ok(Role::Named(name.copied()?)),
        }
    }
}
