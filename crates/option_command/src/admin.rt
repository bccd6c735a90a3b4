//! The command line of `xxl_admin`.
ghost use Rattle.std.specs.Prelude.{◌≡◌, List, IfOk, IfErr, map, string_bytes};
ghost use Rattle.clap.specs.Words.{app_of, rows_of, found_of};
ghost use Rattle.option_words.specs.Programs.{admin_app, admin_options};
ghost use Rattle.option_words.specs.Plain.{Use, AreUses};
ghost use Rattle.option_command.specs.Said.{IsAdmin, text_in};
ghost use Rattle.option_command.specs.Refusals.{GivesForm, GivesMatches, ReadsWords, GivesPlain};

use super::build::{bare_command, with_number, with_number_or, with_optional, with_text_or};
use super::forms::TextForm;
use super::refusal::WordsRefusal;
use super::said::{formed_text_of, number_of, offset_of, small_number_of, text_if_any};
use clap::error::ErrorKind;
use clap::{ArgMatches, Command};
use job_values::limits::{ADMINS, LAST_OFFSET};
use job_values::{Offset, Text};
use option_words::limits::{LAST_FIRST_PORT, MOST_FAST, MOST_SLOW};
use std::alloc::{AllocError, Global};

/// What the words of `xxl_admin` say.
#[derive(Drop)]
pub struct AdminOptions {
    /// The port of the first node; each further node has the next one.
    pub port: u16,
    /// How many nodes there are.
    pub nodes: u8,
    /// How far the civil clock is ahead of UTC.
    pub offset: Offset,
    /// How many threads the fast pool of a node has.
    pub fast: u8,
    /// How many threads the slow pool of a node has.
    pub slow: u8,
    /// The token of calls; empty where there is none.
    pub token: Text,
    /// The base of the nodes' paths.
    pub base: Text,
    /// The file of the database; without it the database is in memory.
    pub db: Option<Text>,
}

/// The command with the options of `xxl_admin`.
fn admin_command<'a>(alloc: Global) -> Result<Command<'a>, AllocError>
    ensures { IfOk result (λ c. app_of c ≡ admin_app) }
{
    let command = bare_command(alloc, "xxl_admin");
    let command = with_number(alloc, command, "port", 1, i64::from(LAST_FIRST_PORT))?;
    let command = with_number_or(alloc, command, "nodes", 1, ADMINS as i64, "2")?;
    let command = with_number_or(
        alloc,
        command,
        "offset",
        i64::from(-LAST_OFFSET),
        i64::from(LAST_OFFSET),
        "0",
    )?;
    let command = with_number_or(alloc, command, "fast", 1, i64::from(MOST_FAST), "8")?;
    let command = with_number_or(alloc, command, "slow", 1, i64::from(MOST_SLOW), "4")?;
    let command = with_text_or(alloc, command, "token", "")?;
    let command = with_text_or(alloc, command, "base", "/xxl-job-admin/api/")?;
    with_optional(alloc, command, "db")
}

/// The matches of the words.
fn admin_matches<'a>(alloc: Global, words: &'a [String]) -> Result<ArgMatches<'a>, WordsRefusal>
    ensures reads { GivesMatches admin_app (map string_bytes words.entry.now) result }
    ensures plain { (uses : List Use) → AreUses admin_options uses (map string_bytes words.entry.now) → IfErr result (λ e. e ≡ WordsRefusal.Memory) }
{
    let Ok(command) = admin_command(alloc) else {
        return Err(WordsRefusal::Memory);
    };
    match command.try_get_matches_from(words) {
        Ok(matches) => Ok(matches),
        Err(error) => {
            if error.kind() == ErrorKind::OutOfMemory {
                Err(WordsRefusal::Memory)
            } else {
                Err(WordsRefusal::Words(error))
            }
        }
    }
}

/// The options that the matches say.
fn admin_said(alloc: Global, matches: &ArgMatches<'_>) -> Result<AdminOptions, WordsRefusal>
    ensures { GivesForm (IsAdmin (text_in (rows_of (found_of matches.now)))) result }
{
    Ok(AdminOptions {
        port: number_of(matches, "port", LAST_FIRST_PORT)?,
        nodes: small_number_of(matches, "nodes", ADMINS as u8)?,
        offset: offset_of(matches, "offset")?,
        fast: small_number_of(matches, "fast", MOST_FAST)?,
        slow: small_number_of(matches, "slow", MOST_SLOW)?,
        token: formed_text_of(alloc, matches, "token", TextForm::Any)?,
        base: formed_text_of(alloc, matches, "base", TextForm::Base)?,
        db: text_if_any(alloc, matches, "db")?,
    })
}

/// Reads the words of `xxl_admin`, those behind the program's name.
pub fn read_admin(alloc: Global, words: &[String]) -> Result<AdminOptions, WordsRefusal>
    ensures reads { ReadsWords admin_app IsAdmin (map string_bytes words.now) result }
    // Words of the plain form are not refused, and say what they give.
    ensures plain { (uses : List Use) → AreUses admin_options uses (map string_bytes words.now) → GivesPlain IsAdmin uses result }
{
    match admin_matches(alloc, words) {
        Ok(matches) => admin_said(alloc, &matches),
        Err(refusal) => Err(refusal),
    }
}
