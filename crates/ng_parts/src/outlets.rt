//! Outlets, the places that the bodies of blocks fill (API: ngIf, ngSwitch, ngRepeat, ngInclude).
ghost use Rattle.std.specs.Prelude.{◌≡◌, IfOk};
ghost use Rattle.ng_parts.specs.FragmentOf.{filling_of};

use crate::repeated::Repeated;
use ng_base::txt::Txt;
use std::alloc::{AllocError, Global};

/// How an outlet is filled: the body of this number stands while the value of the site is true; or it is a case of a switch, with its text, or
/// a default; or there is one of it for each entry of a collection; or it stands while the value is true, with the template in it that the value
/// names.
#[derive(Drop)]
pub enum Filling {
    BodyIf(u32),
    OnCase(Option<Txt>, u32),
    ForEach(Repeated, u32),
    ByName(u32),
}

/// An outlet is filled by the value of a site.
#[derive(Drop)]
pub struct Outlet {
    pub site: u32,
    pub filling: Filling,
}

/// The text of a case again, which is shared.
fn copied_case(text: &Option<Txt>) -> Result<Option<Txt>, AllocError>
    ensures { IfOk result (λ t. t ≡ text.now) }
{
    match text {
        None => Ok(None),
        Some(text) => Ok(Some(text.copied()?)),
    }
}

impl Filling {
    /// The same again. Its texts and its program are shared.
    pub fn copied(&self, alloc: Global) -> Result<Filling, AllocError>
        ensures { IfOk result (λ f. filling_of f ≡ filling_of self.now) }
    {
        match self {
            Filling::BodyIf(body) => Ok(Filling::BodyIf(*body)),
            Filling::OnCase(text, body) => Ok(Filling::OnCase(copied_case(text)?, *body)),
            Filling::ForEach(repeated, body) => {
                Ok(Filling::ForEach(repeated.copied(alloc)?, *body))
            }
            Filling::ByName(body) => Ok(Filling::ByName(*body)),
        }
    }
}
