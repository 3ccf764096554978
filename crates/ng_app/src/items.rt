//! What an application includes, and its directives.
use ng_base::txt::Txt;
use ng_parts::Tpl;
use ng_parts::programs::Programs;

/// A template that may be included, by its name.
#[derive(Drop)]
pub struct AppTemplate {
    pub(crate) name: Txt,
    pub(crate) template: Tpl,
}

/// A directive: its template, if it has one, and what it does on its scope.
#[derive(Drop)]
pub struct AppDirective {
    pub(crate) template: Option<Tpl>,
    pub(crate) programs: Programs,
}
