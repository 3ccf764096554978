//! The filters, as evaluation calls them.
ghost use Rattle.std.specs.Prelude.{◌≡◌, IsTrue, length, IfOk};
ghost use Rattle.ng_base.specs.Faults.{is_memory};
ghost use Rattle.ng_base.specs.Meets.{Gives};
ghost use Rattle.ng_base.specs.Views.{views_from, views_list};
ghost use Rattle.ng_base.specs.ViewOf.{view_of, views_of};
ghost use Rattle.ng_language.specs.Views.{ViewStands, ViewsStand};
ghost use Rattle.ng_evaluation.specs.Applied.{known as known_filter, applied};

use ng_base::fault::Fault;
use ng_base::txt::Txt;
use ng_base::view::{View, Views};
use ng_store::Store;
use std::alloc::Global;

/// Whether a filter is in the table and takes so many arguments.
#[tactic(auto, unfolding(ng_evaluation::specs::Applied::known))]
pub fn known(name: &Txt, args: u32) -> bool
    ensures { result ≡ known_filter name.now args }
{
    ng_filters::known(name, args)
}

/// What a filter makes of an input with its arguments.
#[tactic(auto, using(ng_value::proofs::ViewParts::view_parts), unfolding(ng_evaluation::specs::Applied::known, ng_evaluation::specs::Applied::applied))]
pub fn apply(
    alloc: Global,
    name: &Txt,
    store: &Store,
    input: &View,
    args: &Views,
) -> Result<View, Fault>
    requires known { IsTrue (known_filter name.now (length (views_list (views_of args.now)))) }
    requires input { ViewStands (length store.now) (view_of input.now) }
    requires args { ViewsStand (length store.now) (views_of args.now) }
    ensures applied { Gives is_memory view_of (applied store.now name.now (view_of input.now) (views_from (views_list (views_of args.now)))) result }
    ensures stands { IfOk result (λ v. ViewStands (length store.now) (view_of v)) }
{
    ng_filters::apply(alloc, name, store, input, args)
}
