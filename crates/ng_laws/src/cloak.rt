//! What `ng-cloak` leaves (reference: ngCloak): a contract without a body.
ghost use Rattle.ng_laws.specs.Cloaks.{WordsStay, ClassStays, EachClassIsCut};

/// Of a class the words other than `ng-cloak` stay, each behind its white space.
pub fn cloak_leaves_no_trace()
    ensures words { WordsStay }
    ensures without { ClassStays }
    ensures each { EachClassIsCut }
{}
