//! The name of the directive that a name picks (guide: Directives, "Normalization"): a contract without a body.
ghost use Rattle.ng_laws.specs.Camel.{WordsAreCased, EachNameHasWords, FrontGoes, FrontStays};

/// The words of a name between its joiners are the directive's, each behind the first with a capital.
pub fn words_are_cased()
    ensures words { WordsAreCased }
    ensures each { EachNameHasWords }
    ensures front { FrontGoes }
    ensures stays { FrontStays }
{}
