//! What a document compiles to.
ghost use Rattle.std.specs.Prelude.{◌≡◌, true, length, IfSome};
ghost use Rattle.ng_parts.specs.FragmentOf.{fragment_of, fragments_of};
ghost use Rattle.ng_drawing.specs.Numbering.{are_bare, is_regular, is_whole};

use crate::fragment::Fragment;
use crate::outlets::Outlet;
use crate::site::Site;

/// A template: its own fragment, and those of its blocks' bodies, each after those in it. The parts of each have the numbers of its sites
/// and outlets in document order.
#[derive(Drop)]
pub struct Tpl {
    own: Fragment,
    bodies: Vec<Fragment>,
    ghost regular: { is_regular (record { own = fragment_of own; bodies = fragments_of bodies.items }) ≡ true },
    ghost bare: { are_bare (record { own = fragment_of own; bodies = fragments_of bodies.items }) ≡ true },
}

impl Tpl {
    ghost use Rattle.std.specs.Prelude.{option_map};
    ghost use Rattle.ng_drawing.specs.Template.{fragment_at};
    ghost use Rattle.ng_parts.specs.TemplateOf.{template_of};

    /// A template of these fragments.
    pub fn new(own: Fragment, bodies: Vec<Fragment>) -> Tpl
        requires regular { is_regular (record { own = fragment_of own; bodies = fragments_of bodies.items }) ≡ true }
        requires bare { are_bare (record { own = fragment_of own; bodies = fragments_of bodies.items }) ≡ true }
        ensures { template_of result ≡ record { own = fragment_of own; bodies = fragments_of bodies.items } }
    {
        Tpl { own, bodies }
    }

    /// Its own fragment.
    pub fn own(&self) -> &Fragment
        ensures own { fragment_of result.now ≡ (template_of self.now).own }
        ensures regular { is_regular (template_of self.now) ≡ true }
    {
        &self.own
    }

    /// The fragment of a number: 0 is its own, and its bodies follow.
    pub fn fragment(&self, n: u32) -> Option<&Fragment>
        ensures fragment { option_map (λ f. fragment_of f.now) result ≡ fragment_at (template_of self.now) n }
        ensures order { IfSome result (λ f. is_whole (length (template_of self.now).bodies) (fragment_of f.now) ≡ true) }
    {
        if n == 0 {
            Some(&self.own)
        } else {
            self.bodies.get(n as usize - 1)
        }
    }
}

/// A fragment that is being made: the places that are left, its sites and outlets so far, and the bodies that are made.
#[derive(Drop)]
pub struct Making<'a> {
    pub places: &'a [u64],
    pub sites: Vec<Site>,
    pub outlets: Vec<Outlet>,
    pub bodies: Vec<Fragment>,
}
