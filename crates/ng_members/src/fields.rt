//! The fields of a fresh record.
ghost use Rattle.std.specs.Prelude.{◌≡◌, ℕ, map, IfOk, OnOk};
ghost use Rattle.std.specs.Str.{bytes_eq};
ghost use Rattle.indexmap.specs.IndexMap.{insert_entry};
ghost use Rattle.ng_base.specs.Views.{rec, fields_from, fields_list};
ghost use Rattle.ng_language.specs.Views.{ViewStands};
ghost use Rattle.ng_members.specs.Leaves.{FieldsAllStand};
ghost use Rattle.ng_base.specs.ViewOf.{view_of, fields_of, field_of};

use indexmap::IndexMap;
use ng_base::fault::Memory;
use ng_base::txt::Txt;
use ng_base::view::{Fields, View};
use std::alloc::Global;

/// Sets the view of a name: in its place, or at the end.
pub fn put_field(fields: &mut IndexMap<Txt, View>, name: Txt, view: View) -> Result<(), Memory>
    ensures { OnOk result (map field_of fields.new.entries ≡ insert_entry bytes_eq (map field_of fields.old.entries) name (view_of view)) }
{
    fields.insert(name, view)?;
    Ok(())
}

/// The record of fields.
pub fn record_of(alloc: Global, fields: IndexMap<Txt, View>) -> Result<Fields, Memory>
    ensures { IfOk result (λ r. fields_list (fields_of r) ≡ map field_of fields.entries) }
{
    let mut done = Fields::new(alloc);
    let mut left = fields.into_iter();
    while let Some((name, view)) = left.next() {
        done.push(name, view)?;
    }
    Ok(done)
}

/// The view of a fresh record.
#[tactic(auto, using(ng_value::proofs::ViewParts::view_parts))]
pub fn record_view(fields: Fields) -> View
    ensures exact { view_of result ≡ rec (fields_from (fields_list (fields_of fields))) }
    ensures stands { (n : ℕ) → FieldsAllStand n (fields_list (fields_of fields)) → ViewStands n (view_of result) }
{
    View::of_fields(fields)
}
