//! The command line of the program.
use crate::listing::Mode;
use crate::source::ErrorStyle;
use clap::{Arg, ArgAction, ArgMatches, Command, Error};
use std::alloc::Global;
use tok_core::Edition;

static EDITIONS: [&str; 4] = ["2015", "2018", "2021", "2024"];

const ABOUT: &str = "Lists the structs, enums and unions of Rust source files, or their attributes";

const AFTER: &str = "\
A line is FILE:LINE:COLUMN: KIND NAME, and then what there is of the rest: VISIBILITY <GENERICS>
DELIMITERS : TYPE = DISCRIMINANT where PREDICATES #[ATTRIBUTE].. KIND is `struct`, `enum`, `union`,
`variant` or `field`. DELIMITERS are `{}` or `()`. Lines and columns count characters from 1.

With --attributes it is FILE:LINE:COLUMN: STYLE PATH DELIMITER ARGUMENTS. STYLE is `outer` or
`inner`. DELIMITER is `()`, `[]`, `{}` or `=`, and is left out with ARGUMENTS. A doc comment is the
attribute `doc`.

The exit status is 0 if something is found, 1 if nothing is, and 2 if a file is in error.";

/// Returns the definition of the program's command line.
pub fn command<'a>(alloc: Global) -> Result<Command<'a>, Error> {
    let file = Arg::new(alloc, "FILE")
        .help("A Rust source file")
        .required(true)
        .num_args(1..)
        .action(ArgAction::Append);
    let attributes = Arg::new(alloc, "attributes")
        .long("attributes")
        .help("List attributes in place of items")
        .action(ArgAction::SetTrue);
    let edition = Arg::new(alloc, "edition")
        .long("edition")
        .help("The edition of Rust of the files")
        .value_parser(EDITIONS.as_slice())
        .default_value("2021");
    let carets = Arg::new(alloc, "carets")
        .long("carets")
        .help("Show the line of each error, with carets under it")
        .action(ArgAction::SetTrue);
    let command = Command::new(alloc, "outline")
        .bin_name("outline")?
        .about(ABOUT)
        .after_help(AFTER)
        .arg(file)?
        .arg(attributes)?
        .arg(edition)?
        .arg(carets)?;
    Ok(command)
}

/// Returns the mode that the command line selects.
pub fn mode(matches: &ArgMatches<'_>) -> Mode {
    if matches.get_flag("attributes") {
        Mode::Attributes
    } else {
        Mode::Items
    }
}

/// Returns the edition that the command line selects.
pub fn edition(matches: &ArgMatches<'_>) -> Edition {
    match matches.get_str("edition") {
        Some("2015") => Edition::Edition2015,
        Some("2018") => Edition::Edition2018,
        Some("2024") => Edition::Edition2024,
        _ => Edition::Edition2021,
    }
}

/// Returns the error style that the command line selects.
pub fn error_style(matches: &ArgMatches<'_>) -> ErrorStyle {
    if matches.get_flag("carets") {
        ErrorStyle::Carets
    } else {
        ErrorStyle::Line
    }
}
