//! What opens, or the first refusal in the order of work.
ghost use Rattle.std.specs.Prelude.{◌≡◌, false, None, IfOk};
ghost use Rattle.ng_base.specs.Meets.{Gives};
ghost use Rattle.ng_script.specs.Acts.{entries_of};
ghost use Rattle.ng_inputs.specs.Acts.{AreSound};
ghost use Rattle.ng_inputs.specs.Free.{is_want, memory_in};
ghost use Rattle.ng_inputs.specs.Refusals.{accepted, refusal_status};
ghost use Rattle.ng_inputs.specs.InputsOf.{accepted_of, inputs_of};
ghost use Rattle.ng_inputs.specs.declared.refusal.Refusal.TheVariants as refusals;

use crate::files::Inputs;
use crate::scripts::read_commands;
use ng_app::App;
use ng_base::fault::Memory;
use ng_directives::fault::{TplFault, TplKind};
use ng_entries::{AppFault, AppKind};
use ng_html::fault::{HtmlFault, HtmlKind};
use ng_html::reading::read;
use ng_parts::tpl::Tpl;
use ng_script::{Commands, ScriptFault, ScriptKind};
use ng_template::compiling::compile;
use std::alloc::Global;

/// A refusal: of the template's document, of the application, of the template that the document asks for, or of the script.
#[derive(Clone, Copy)]
pub enum Refusal {
    Document(HtmlFault),
    Application(AppFault),
    Template(TplFault),
    Script(ScriptFault),
}

/// What a page is opened from, and the commands that are done on it.
#[derive(Drop)]
pub struct Accepted {
    pub app: App,
    pub template: Tpl,
    pub commands: Commands,
}

impl From<HtmlFault> for Refusal {
    ghost from_gives = { λ f r. r ≡ refusals.Document f };

    fn from(fault: HtmlFault) -> Self {
        Refusal::Document(fault)
    }
}

impl From<AppFault> for Refusal {
    ghost from_gives = { λ f r. r ≡ refusals.Application f };

    fn from(fault: AppFault) -> Self {
        Refusal::Application(fault)
    }
}

impl From<TplFault> for Refusal {
    ghost from_gives = { λ f r. r ≡ refusals.Template f };

    fn from(fault: TplFault) -> Self {
        Refusal::Template(fault)
    }
}

impl From<ScriptFault> for Refusal {
    ghost from_gives = { λ f r. r ≡ refusals.Script f };

    fn from(fault: ScriptFault) -> Self {
        Refusal::Script(fault)
    }
}

impl Refusal {
    /// The want of memory that it is.
    pub fn memory(&self) -> Option<Memory>
        ensures memory { result ≡ memory_in self.now }
        ensures definite { result ≡ None → is_want self.now ≡ false }
    {
        match self {
            Refusal::Document(
                HtmlFault {
                    kind: HtmlKind::Memory(memory),
                    ..
                },
            ) => Some(*memory),
            Refusal::Application(
                AppFault {
                    kind: AppKind::Memory(memory),
                    ..
                },
            ) => Some(*memory),
            Refusal::Template(
                TplFault {
                    kind: TplKind::Memory(memory),
                    ..
                },
            ) => Some(*memory),
            Refusal::Script(
                ScriptFault {
                    kind: ScriptKind::Memory(memory),
                    ..
                },
            ) => Some(*memory),
            _ => None,
        }
    }

    /// The status of a run that it ends.
    pub fn status(&self) -> u8
        ensures { result ≡ refusal_status self.now }
    {
        match self {
            Refusal::Document(_) => 3,
            Refusal::Application(_) => 4,
            Refusal::Template(_) => 3,
            Refusal::Script(_) => 5,
        }
    }
}

/// What a page is opened from and the commands that are done on it, unless a file is refused.
pub fn accept(alloc: Global, inputs: Inputs) -> Result<Accepted, Refusal>
    // The answer is what the files ask for, or the first refusal in the order of work, unless memory is refused.
    ensures accepted { Gives is_want accepted_of (accepted (inputs_of inputs)) result }
    // Each probe among the commands is pure, and its filters are there; the arguments of each event are a list.
    ensures sound { IfOk result (λ a. AreSound (entries_of a.commands)) }
{
    let source = read(alloc, inputs.template.as_slice())?;
    let app = App::take(alloc, inputs.application)?;
    let template = compile(alloc, &source, app.registry(), false)?;
    let commands = read_commands(alloc, inputs.script.as_slice())?;
    Ok(Accepted {
        app,
        template,
        commands,
    })
}
