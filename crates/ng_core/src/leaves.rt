//! The expressions without parts.
ghost use Rattle.std.specs.Prelude.{◌≡◌, ◌<◌, length, IfOk, IfErr, true};
ghost use Rattle.ng_base.specs.Faults.{is_memory};
ghost use Rattle.ng_base.specs.Views.{prim};
ghost use Rattle.ng_base.specs.ViewOf.{view_of};
ghost use Rattle.ng_base.specs.declared.value.Value.TheVariants.{Text as a_text_value};
ghost use Rattle.ng_language.specs.Views.{ViewStands};
ghost use Rattle.ng_members.specs.Leaves.{named};
ghost use Rattle.ng_core.specs.Events.{object_value};
ghost use Rattle.ng_core.specs.Frames.{IsSound};
ghost use Rattle.ng_behaviour.specs.Scopes.{object_at};

use crate::core_state::Core;
use ng_base::fault::Fault;
use ng_base::name::ScopeId;
use ng_base::txt::Txt;
use ng_base::value::Value;
use ng_base::view::View;
use ng_members::literals::named;

/// A text.
pub fn text_value(t: &Txt) -> Result<View, Fault>
    ensures value { IfOk result (λ v. view_of v ≡ prim (a_text_value t.now)) }
    ensures memory { IfErr result (λ e. is_memory e ≡ true) }
{
    Ok(View::of_value(Value::Text(t.copied()?)))
}

/// A bare name.
pub fn name_value(core: &Core, scope: ScopeId, name: &Txt) -> Result<View, Fault>
    requires sound { IsSound core.now }
    requires scope { scope.0 < length core.now.scopes }
    ensures value { IfOk result (λ v. view_of v ≡ named core.now.store (object_at core.now.scopes scope.0) core.now.locals name.now) }
    ensures memory { IfErr result (λ e. is_memory e ≡ true) }
    ensures stands { IfOk result (λ v. ViewStands (length core.now.store) (view_of v)) }
{
    let object = core.scopes.object(scope);
    Ok(named(&core.store, object, &core.locals, name)?)
}

/// `this` is the scope.
pub fn scope_value(core: &Core, scope: ScopeId) -> View
    requires sound { IsSound core.now }
    requires scope { scope.0 < length core.now.scopes }
    ensures value { view_of result ≡ prim (object_value (object_at core.now.scopes scope.0)) }
    ensures stands { ViewStands (length core.now.store) (view_of result) }
{
    View::of_value(Value::Obj(core.scopes.object(scope)))
}
