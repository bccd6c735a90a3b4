//! The command line of `xxl_executor`.
ghost use Rattle.std.specs.Prelude.{◌≡◌, List, IfOk, IfErr, map, string_bytes};
ghost use Rattle.clap.specs.Words.{app_of, rows_of, found_of};
ghost use Rattle.option_words.specs.Programs.{executor_app, executor_options};
ghost use Rattle.option_words.specs.Plain.{Use, AreUses};
ghost use Rattle.option_command.specs.Said.{IsExecutor, text_in};
ghost use Rattle.option_command.specs.Refusals.{GivesForm, GivesMatches, ReadsWords, GivesPlain};

use super::build::{bare_command, with_number, with_number_or, with_text, with_text_or};
use super::forms::TextForm;
use super::refusal::WordsRefusal;
use super::said::{addresses_of, formed_text_of, number_of, small_number_of};
use clap::error::ErrorKind;
use clap::{ArgMatches, Command};
use job_values::limits::EXECUTORS;
use job_values::{Seq, Text};
use option_words::limits::LAST_PORT;
use std::alloc::{AllocError, Global};

/// What the words of `xxl_executor` say.
#[derive(Drop)]
pub struct ExecutorOptions {
    /// The port on which it is asked.
    pub port: u16,
    /// The name under which it registers.
    pub app: Text,
    /// The address that it registers.
    pub address: Text,
    /// The addresses of the admins.
    pub admins: Seq<Text>,
    /// The base of the admins' paths.
    pub base: Text,
    /// The token of calls; empty where there is none.
    pub token: Text,
    /// How many runs go at once.
    pub runners: u8,
    /// The file of the results that could not be sent.
    pub spool: Text,
}

/// The command with the options of `xxl_executor`.
fn executor_command<'a>(alloc: Global) -> Result<Command<'a>, AllocError>
    ensures { IfOk result (λ c. app_of c ≡ executor_app) }
{
    let command = bare_command(alloc, "xxl_executor");
    let command = with_number(alloc, command, "port", 1, i64::from(LAST_PORT))?;
    let command = with_text(alloc, command, "app")?;
    let command = with_text(alloc, command, "address")?;
    let command = with_text(alloc, command, "admins")?;
    let command = with_text_or(alloc, command, "base", "/xxl-job-admin/api/")?;
    let command = with_text_or(alloc, command, "token", "")?;
    let command = with_number_or(alloc, command, "runners", 1, EXECUTORS as i64, "4")?;
    with_text(alloc, command, "spool")
}

/// The matches of the words.
fn executor_matches<'a>(alloc: Global, words: &'a [String]) -> Result<ArgMatches<'a>, WordsRefusal>
    ensures reads { GivesMatches executor_app (map string_bytes words.entry.now) result }
    ensures plain { (uses : List Use) → AreUses executor_options uses (map string_bytes words.entry.now) → IfErr result (λ e. e ≡ WordsRefusal.Memory) }
{
    let Ok(command) = executor_command(alloc) else {
        return Err(WordsRefusal::Memory);
    };
    match command.try_get_matches_from(words) {
        Ok(matches) => Ok(matches),
        Err(error) => {
            if error.kind() == ErrorKind::OutOfMemory {
                Err(WordsRefusal::Memory)
            } else {
                Err(WordsRefusal::Words(error))
            }
        }
    }
}

/// The options that the matches say.
fn executor_said(alloc: Global, matches: &ArgMatches<'_>) -> Result<ExecutorOptions, WordsRefusal>
    ensures { GivesForm (IsExecutor (text_in (rows_of (found_of matches.now)))) result }
{
    Ok(ExecutorOptions {
        port: number_of(matches, "port", LAST_PORT)?,
        app: formed_text_of(alloc, matches, "app", TextForm::App)?,
        address: formed_text_of(alloc, matches, "address", TextForm::Address)?,
        admins: addresses_of(alloc, matches, "admins")?,
        base: formed_text_of(alloc, matches, "base", TextForm::Base)?,
        token: formed_text_of(alloc, matches, "token", TextForm::Any)?,
        runners: small_number_of(matches, "runners", EXECUTORS as u8)?,
        spool: formed_text_of(alloc, matches, "spool", TextForm::Any)?,
    })
}

/// Reads the words of `xxl_executor`, those behind the program's name.
pub fn read_executor(alloc: Global, words: &[String]) -> Result<ExecutorOptions, WordsRefusal>
    ensures reads { ReadsWords executor_app IsExecutor (map string_bytes words.now) result }
    // Words of the plain form are not refused, and say what they give.
    ensures plain { (uses : List Use) → AreUses executor_options uses (map string_bytes words.now) → GivesPlain IsExecutor uses result }
{
    match executor_matches(alloc, words) {
        Ok(matches) => executor_said(alloc, &matches),
        Err(refusal) => Err(refusal),
    }
}
