//! Lists that are read from their front.
ghost use Rattle.std.specs.Prelude.{◌≡◌, ◌∷◌, [], map, MatchOption};
ghost use Rattle.ng_base.specs.Views.{views_from, fields_from};
ghost use Rattle.ng_base.specs.ViewOf.{view_of, views_of, fields_of, field_of};

use ng_base::txt::Txt;
use ng_base::value::Value;
use ng_base::view::{Fields, View, Views};

/// The views of a fresh list.
#[tactic(auto, using(ng_value::proofs::ViewParts::view_parts))]
pub(crate) fn views_in(views: &Views) -> &[View]
    ensures { views_from (map view_of result.now) ≡ views_of views.now }
{
    views.as_slice()
}

/// The fields of a fresh record.
#[tactic(auto, using(ng_value::proofs::ViewParts::view_parts))]
pub(crate) fn fields_in(fields: &Fields) -> &[(Txt, View)]
    ensures { fields_from (map field_of result.now) ≡ fields_of fields.now }
{
    fields.as_slice()
}

/// The first view and the rest.
pub(crate) fn first_view(views: &[View]) -> Option<(&View, &[View])>
    ensures { MatchOption result (views.now ≡ []) (λ r. views.now ≡ r.0.now ∷ r.1.now) }
{
    views.split_first()
}

/// The first field and the rest.
pub(crate) fn first_field(fields: &[(Txt, View)]) -> Option<(&(Txt, View), &[(Txt, View)])>
    ensures { MatchOption result (fields.now ≡ []) (λ r. fields.now ≡ r.0.now ∷ r.1.now) }
{
    fields.split_first()
}

/// The first named value and the rest.
pub(crate) fn first_property(
    properties: &[(Txt, Value)],
) -> Option<(&(Txt, Value), &[(Txt, Value)])>
    ensures { MatchOption result (properties.now ≡ []) (λ r. properties.now ≡ r.0.now ∷ r.1.now) }
{
    properties.split_first()
}
