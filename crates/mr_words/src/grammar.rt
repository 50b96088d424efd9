//! The command line as `clap` reads it.

ghost use Rattle.std.specs.Prelude.{◌≡◌, IfOk};
ghost use Rattle.clap.specs.Words.{app_of, shape_of};
ghost use Rattle.mr_words.specs.Grammar.{row_shape, program, row_names};

use crate::names::{
    ADD_ROOM, BOOK, BRIDGE, CALENDAR, CANCEL, COMMIT, ERRORS, EXCHANGE, EXPORT, IMPORT, INIT,
    OUTCOME, POSITION, REHEARSE, SERVE, SHEET, TRUNCATE,
};
use clap::{Arg, Command};
use std::alloc::{AllocError, Global};

/// The names of the table's rows.
static ROWS: [&str; 17] = [
    INIT, EXPORT, IMPORT, REHEARSE, SERVE, EXCHANGE, BRIDGE, ADD_ROOM, BOOK, CANCEL, COMMIT,
    TRUNCATE, POSITION, SHEET, CALENDAR, OUTCOME, ERRORS,
];

/// A row of the table, with one positional for all its words.
fn row<'a>(alloc: Global, name: &'a str) -> Result<Command<'a>, AllocError>
    ensures { IfOk result (λ row. shape_of row ≡ row_shape name.entry.now) }
{
    let words = Arg::new(alloc, "words").num_args(..);
    Command::new(alloc, name).arg(words)
}

/// The program, with a subcommand for each row, and without help.
pub(crate) fn grammar<'a>(alloc: Global) -> Result<Command<'a>, AllocError>
    ensures { IfOk result (λ command. app_of command ≡ program row_names) }
{
    let mut command = Command::new(alloc, "rooms")
        .no_binary_name(true)
        .disable_help_flag(true)
        .disable_help_subcommand(true)
        .subcommand_required(true);
    for name in &ROWS {
        command = command.subcommand(row(alloc, name)?)?;
    }
    Ok(command)
}
