//! Views: what a program without effects gives. The recursion goes through vectors; `specs/ViewOf.antt` says
//! what a view stands for.
ghost use Rattle.std.specs.Prelude.{◌≡◌, ◌++◌, ◌∷◌, [], map, OnOk, OnErr};
ghost use Rattle.ng_base.specs.Views.{prim, list, rec, no_views, no_fields, views_list, fields_list};
ghost use Rattle.ng_base.specs.ViewOf.{view_of, views_of, fields_of, field_of};

use crate::txt::Txt;
use crate::value::Value;
use std::alloc::{AllocError, Global};

/// A value, or a fresh list or record, which has no identity.
#[cycle(view)]
#[derive(Drop)]
pub enum View {
    Prim(Value),
    List(Views),
    Rec(Fields),
}

/// The views of a fresh list.
#[cycle(view)]
#[derive(Drop)]
pub struct Views {
    items: Vec<View>,
}

/// The names and views of a fresh record.
#[cycle(view)]
#[derive(Drop)]
pub struct Fields {
    items: Vec<(Txt, View)>,
}

#[tactic(auto, using(crate::proofs::ViewLists::view_steps))]
impl View {
    /// The view of a value.
    pub fn of_value(value: Value) -> View
        ensures { view_of result ≡ prim value }
    {
        View::Prim(value)
    }

    /// The view of a fresh list.
    pub fn of_list(views: Views) -> View
        ensures { view_of result ≡ list (views_of views) }
    {
        View::List(views)
    }

    /// The view of a fresh record.
    pub fn of_fields(fields: Fields) -> View
        ensures { view_of result ≡ rec (fields_of fields) }
    {
        View::Rec(fields)
    }
}

#[tactic(auto, using(crate::proofs::ViewLists::view_steps))]
impl Views {
    /// No view.
    pub fn new(alloc: Global) -> Views
        ensures { views_of result ≡ no_views }
    {
        Views {
            items: Vec::new(alloc),
        }
    }

    /// Adds a view at the end.
    pub fn push(&mut self, view: View) -> Result<(), AllocError>
        ensures ok { OnOk result (views_list (views_of self.new) ≡ views_list (views_of self.old) ++ view_of view ∷ []) }
        ensures err { OnErr result (views_of self.new ≡ views_of self.old) }
    {
        self.items.push(view)?;
        Ok(())
    }

    /// All of them, in order.
    pub fn as_slice(&self) -> &[View]
        ensures { map view_of result.now ≡ views_list (views_of self.now) }
    {
        self.items.as_slice()
    }
}

#[tactic(auto, using(crate::proofs::ViewLists::view_steps))]
impl Fields {
    /// No field.
    pub fn new(alloc: Global) -> Fields
        ensures { fields_of result ≡ no_fields }
    {
        Fields {
            items: Vec::new(alloc),
        }
    }

    /// Adds a name with its view at the end.
    pub fn push(&mut self, name: Txt, view: View) -> Result<(), AllocError>
        ensures ok { OnOk result (fields_list (fields_of self.new) ≡ fields_list (fields_of self.old) ++ (name, view_of view) ∷ []) }
        ensures err { OnErr result (fields_of self.new ≡ fields_of self.old) }
    {
        self.items.push((name, view))?;
        Ok(())
    }

    /// All of them, in order.
    pub fn as_slice(&self) -> &[(Txt, View)]
        ensures { map field_of result.now ≡ fields_list (fields_of self.now) }
    {
        self.items.as_slice()
    }
}
