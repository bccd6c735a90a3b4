//! Options added to a command, one after another.
ghost use Rattle.std.specs.Prelude.{◌≡◌, true, [], ◌∷◌, Some, IfOk};
ghost use Rattle.clap.specs.Words.{app_of, with_rule, new_rule};
ghost use Rattle.clap.specs.declared.builder.action.ArgAction.TheVariants.{Set};
ghost use Rattle.clap.specs.declared.builder.value_parser.ValueParser.TheVariants as vp;
ghost use Rattle.option_words.specs.Options.{bare_app};

use clap::builder::ValueParser;
use clap::{Arg, ArgAction, Command};
use std::alloc::{AllocError, Global};

/// A command without options.
pub(crate) fn bare_command<'a>(alloc: Global, name: &'a str) -> Command<'a>
    ensures { app_of result ≡ bare_app name.entry.now }
{
    Command::new(alloc, name)
        .no_binary_name(true)
        .disable_help_flag(true)
}

/// A number that has to be given.
pub(crate) fn with_number<'a>(
    alloc: Global,
    command: Command<'a>,
    name: &'a str,
    least: i64,
    greatest: i64,
) -> Result<Command<'a>, AllocError>
    ensures { IfOk result (λ c. app_of c ≡ with_rule (app_of command.entry) (record (new_rule name.entry.now) { long = Some name.entry.now; action = Some Set; required = true; parser = Some (vp.Signed least greatest) })) }
{
    command.arg(
        Arg::new(alloc, name)
            .long(name)
            .action(ArgAction::Set)
            .required(true)
            .value_parser(ValueParser::signed(least, greatest)),
    )
}

/// A number, or another that stands for it.
pub(crate) fn with_number_or<'a>(
    alloc: Global,
    command: Command<'a>,
    name: &'a str,
    least: i64,
    greatest: i64,
    default: &'a str,
) -> Result<Command<'a>, AllocError>
    ensures { IfOk result (λ c. app_of c ≡ with_rule (app_of command.entry) (record (new_rule name.entry.now) { long = Some name.entry.now; action = Some Set; parser = Some (vp.Signed least greatest); defaults = default.entry.now ∷ [] })) }
{
    command.arg(
        Arg::new(alloc, name)
            .long(name)
            .action(ArgAction::Set)
            .value_parser(ValueParser::signed(least, greatest))
            .default_value(default),
    )
}

/// A text that has to be given.
pub(crate) fn with_text<'a>(
    alloc: Global,
    command: Command<'a>,
    name: &'a str,
) -> Result<Command<'a>, AllocError>
    ensures { IfOk result (λ c. app_of c ≡ with_rule (app_of command.entry) (record (new_rule name.entry.now) { long = Some name.entry.now; action = Some Set; required = true })) }
{
    command.arg(
        Arg::new(alloc, name)
            .long(name)
            .action(ArgAction::Set)
            .required(true),
    )
}

/// A text, or another that stands for it.
pub(crate) fn with_text_or<'a>(
    alloc: Global,
    command: Command<'a>,
    name: &'a str,
    default: &'a str,
) -> Result<Command<'a>, AllocError>
    ensures { IfOk result (λ c. app_of c ≡ with_rule (app_of command.entry) (record (new_rule name.entry.now) { long = Some name.entry.now; action = Some Set; defaults = default.entry.now ∷ [] })) }
{
    command.arg(
        Arg::new(alloc, name)
            .long(name)
            .action(ArgAction::Set)
            .default_value(default),
    )
}

/// A text that may be left out.
pub(crate) fn with_optional<'a>(
    alloc: Global,
    command: Command<'a>,
    name: &'a str,
) -> Result<Command<'a>, AllocError>
    ensures { IfOk result (λ c. app_of c ≡ with_rule (app_of command.entry) (record (new_rule name.entry.now) { long = Some name.entry.now; action = Some Set })) }
{
    command.arg(Arg::new(alloc, name).long(name).action(ArgAction::Set))
}
