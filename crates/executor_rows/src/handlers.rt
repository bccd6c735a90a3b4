//! The handlers of the rows.

use executor_calls::{HandlerResult, Handlers, RunInput, RunOutput};
use job_values::{HandlerName, NoMemory, Seq, Text};
use std::alloc::Global;

/// The names of the handlers.
pub fn names(alloc: Global) -> Result<Seq<HandlerName>, NoMemory> {
    let mut names = Seq::new(alloc);
    for name in ["demo", "fail"] {
        if let Some(name) = HandlerName::new(Text::copied(alloc, name)?) {
            names.push(name)?;
        }
    }
    Ok(names)
}

/// `demo` writes the lines `begin`, its parameter and `end`, and succeeds; `fail` fails with the text
/// `failed`.
#[derive(Drop)]
pub struct RowHandlers {
    alloc: Global,
    begin: Text,
    end: Text,
}

impl RowHandlers {
    pub fn new(alloc: Global) -> Result<RowHandlers, NoMemory> {
        Ok(RowHandlers {
            alloc,
            begin: Text::copied(alloc, "begin")?,
            end: Text::copied(alloc, "end")?,
        })
    }

    fn demo(&self, input: &RunInput, out: &mut RunOutput) -> Result<(), NoMemory> {
        out.line(&self.begin)?;
        out.line(&Text::copied(self.alloc, input.param.as_str())?)?;
        out.line(&self.end)
    }
}

impl Handlers for RowHandlers {
    ghost use Rattle.std.specs.Prelude.{ℕ};

    ghost gives = { λ _ name input lines given. Unit {0} };

    fn run(&self, name: &HandlerName, input: &RunInput, out: &mut RunOutput) -> HandlerResult {
        let ok = name.as_str() == "demo" && self.demo(input, out).is_ok();
        let msg = if ok { "" } else { "failed" };
        HandlerResult {
            ok,
            msg: Text::copied(self.alloc, msg).unwrap_or(Text::of(String::new(self.alloc))),
        }
    }
}
