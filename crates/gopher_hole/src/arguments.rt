//! The arguments of the program.

pub mod values;

use crate::arguments::values::{address_of, bytes_of};
use clap::{Arg, ArgAction, ArgMatches, Command, Error, value_parser};
use gopher_item::NoMemory;
use gopher_server::MAX_LISTENERS;
use std::alloc::{AllocError, Global};
use std::net::SocketAddr;

// The version. Nothing else in the repository states it but CHANGELOG.md.
const VERSION: &str = "0.3.0";

// The greatest number of connections after which a server may end.
const MAX_REQUESTS: i64 = 1_000_000;

// The most seconds after which a fetch that makes no progress fails: a day.
const MAX_FETCH_TIMEOUT: i64 = 86_400;

// The seconds after which such a fetch fails if the arguments name none.
const DEFAULT_FETCH_TIMEOUT: u64 = 60;

// The largest number of connections of one address: more than there are places.
const MAX_CLIENTS: i64 = 1_000_000;

// The most milliseconds between the beginnings of two fetches of one host: an hour.
const MAX_FETCH_PAUSE: i64 = 3_600_000;

/// What the arguments ask for.
#[derive(Debug, Drop)]
pub enum Asked<'a> {
    /// `replay`: replay a script.
    Replay,
    /// `serve`: serve a folder.
    Serve(Serving<'a>),
    /// `check`: check settings and their folder.
    Check(Checking<'a>),
    /// `--help`, `--version`, or bad arguments: a text.
    Told(Text),
}

/// The arguments of `check`.
#[derive(Debug, Drop)]
pub struct Checking<'a> {
    /// The path of the settings.
    pub settings: &'a str,
    /// Whether to bind each address for a moment.
    pub listens: bool,
    /// Where the server will listen, as in `Serving`. If there are none, it will listen at the
    /// addresses of the settings' host.
    pub addresses: Vec<SocketAddr>,
    /// Whether to leave out files and folders that can't be served, as in `Serving`.
    pub leave_out: bool,
    /// The path of the file of aliases, as in `Serving`.
    pub aliases: Option<&'a str>,
    /// Whether to list all that is counted.
    pub all: bool,
    /// Whether a warning is a failure.
    pub strict: bool,
}

/// A text that is printed and ends the program.
#[derive(Debug, Drop)]
pub enum Text {
    /// The text of `--help` or `--version`.
    Shown(String),
    /// What is wrong with the arguments.
    Refusal(String),
}

/// The arguments of `serve`.
#[derive(Debug, Drop)]
pub struct Serving<'a> {
    /// The path of the settings.
    pub settings: &'a str,
    /// After how many connections the server ends; `None` if it never does.
    pub requests: Option<u64>,
    /// How many connections of one address the server holds at most; `None` for a quarter of all.
    pub clients_per_address: Option<u64>,
    /// The path of the log; `None` if no request is logged.
    pub log: Option<&'a str>,
    /// Whether to print the progress of the crawl.
    pub progress: bool,
    /// How many bytes the pages of the crawl may take; `None` if there is no limit.
    pub crawl_memory: Option<u64>,
    /// After how many seconds without progress a fetch fails; 0 if it never does.
    pub fetch_timeout: u64,
    /// The least milliseconds between the beginnings of two fetches of one host and port.
    pub fetch_pause: u64,
    /// The path of the list of found places; `None` if none is written.
    pub list_found: Option<&'a str>,
    /// Whether to leave out files and folders that can't be served, instead of failing.
    pub leave_out: bool,
    /// The path of the file of aliases; `None` if there are no aliases.
    pub aliases: Option<&'a str>,
    /// Where the server listens; port 0 stands for the settings' port. If there are none, it
    /// listens at the addresses of the settings' host.
    pub addresses: Vec<SocketAddr>,
}

// An option with a value.
fn option<'a>(alloc: Global, name: &'a str, value: &'a str, help: &'a str) -> Arg<'a> {
    Arg::new(alloc, name)
        .long(name)
        .value_name(value)
        .action(ArgAction::Set)
        .help(help)
}

// An option without a value.
fn flag<'a>(alloc: Global, name: &'a str, help: &'a str) -> Arg<'a> {
    Arg::new(alloc, name)
        .long(name)
        .action(ArgAction::SetTrue)
        .help(help)
}

fn progress_argument<'a>(alloc: Global) -> Arg<'a> {
    let help = "Print what fails, and the progress of the crawl, on standard error";
    flag(alloc, "progress", help)
}

fn leave_out_argument<'a>(alloc: Global) -> Arg<'a> {
    let help = "Leave out files and folders that can't be served, and start";
    flag(alloc, "leave-out", help)
}

fn aliases_argument<'a>(alloc: Global) -> Arg<'a> {
    let help = "Keep old selectors working: lines of OLD, a TAB and SELECTOR in this file";
    option(alloc, "aliases", "FILE", help)
}

fn timeout_argument<'a>(alloc: Global) -> Arg<'a> {
    let help = "Give up a fetch that makes no progress for this long (60; 0: never)";
    let seconds = value_parser!(u64).range(0..=MAX_FETCH_TIMEOUT);
    option(alloc, "fetch-timeout", "SECONDS", help).value_parser(seconds)
}

fn pause_argument<'a>(alloc: Global) -> Arg<'a> {
    let help = "Wait at least this long between two fetches of another host (0)";
    let milliseconds = value_parser!(u64).range(0..=MAX_FETCH_PAUSE);
    option(alloc, "fetch-pause", "MILLISECONDS", help).value_parser(milliseconds)
}

fn clients_argument<'a>(alloc: Global) -> Arg<'a> {
    let help = "Hold at most N connections of one address (a quarter of all)";
    let numbers = value_parser!(u64).range(1..=MAX_CLIENTS);
    option(alloc, "clients-per-address", "N", help).value_parser(numbers)
}

fn list_argument<'a>(alloc: Global) -> Arg<'a> {
    let help = "Write the found places to this file when the crawl is over";
    option(alloc, "list-found", "FILE", help)
}

fn settings_argument<'a>(alloc: Global) -> Arg<'a> {
    Arg::new(alloc, "SETTINGS")
        .required(true)
        .action(ArgAction::Set)
        .help("A TOML file with the settings of the server and its crawl; see hole.toml(5)")
}

fn check_command<'a>(alloc: Global) -> Result<Command<'a>, AllocError> {
    let help = "Also try to listen at this IP address, or at each address of the host";
    let listens = option(alloc, "listen", "ADDRESS", help)
        .num_args(0..=1)
        .action(ArgAction::Append);
    let leave_out = "Check what serve --leave-out would serve, and list what it leaves out";
    let aliases = "Check this file of aliases too";
    let arguments = vec![in alloc;
        settings_argument(alloc),
        listens,
        flag(alloc, "all", "List all that is counted"),
        flag(alloc, "strict", "Exit with status 1 if there is a warning"),
        flag(alloc, "leave-out", leave_out),
        option(alloc, "aliases", "FILE", aliases),
    ]?;
    Command::new(alloc, "check")
        .about("Report what is wrong with the settings or the folder, and where")
        .args(arguments)
}

fn serve_command<'a>(alloc: Global) -> Result<Command<'a>, AllocError> {
    let listen = "Listen at this IP address, such as 0.0.0.0 or [::]:7070; may be repeated";
    let requests = "Exit after N connections and the end of the crawl; N is at most 1000000";
    let log = "Append a line for each request to this file, or with - to standard error";
    let memory = "Leave out pages once they take this much memory, for example 64M (or K, G)";
    let numbers = value_parser!(u64).range(0..=MAX_REQUESTS);
    let arguments = vec![in alloc;
        settings_argument(alloc),
        option(alloc, "listen", "ADDRESS", listen).action(ArgAction::Append),
        option(alloc, "requests", "N", requests).value_parser(numbers),
        clients_argument(alloc),
        option(alloc, "log", "FILE", log),
        progress_argument(alloc),
        option(alloc, "crawl-memory", "BYTES", memory),
        timeout_argument(alloc),
        pause_argument(alloc),
        list_argument(alloc),
        leave_out_argument(alloc),
        aliases_argument(alloc),
    ]?;
    Command::new(alloc, "serve")
        .about("Serve a folder, crawl the allowed hosts and answer searches")
        .args(arguments)
}

fn replay_command<'a>(alloc: Global) -> Command<'a> {
    Command::new(alloc, "replay")
        .about("Read a script from standard input and replay its crawl")
        .override_usage("hole replay < SCRIPT")
}

// The program without its subcommands.
fn bare_command<'a>(alloc: Global) -> Result<Command<'a>, AllocError> {
    let command = Command::new(alloc, "hole")
        .about("A Gopher server with a crawler and a search")
        .version(VERSION)
        .bin_name("hole")?
        .no_binary_name(true)
        .subcommand_required(true);
    Ok(command)
}

// The program with another subcommand, unless one of the two couldn't be made.
fn with_subcommand<'a>(
    program: Result<Command<'a>, AllocError>,
    subcommand: Result<Command<'a>, AllocError>,
) -> Result<Command<'a>, AllocError> {
    program?.subcommand(subcommand?)
}

fn program_command<'a>(alloc: Global) -> Result<Command<'a>, AllocError> {
    let program = bare_command(alloc)?.subcommand(replay_command(alloc));
    let program = with_subcommand(program, check_command(alloc));
    with_subcommand(program, serve_command(alloc))
}

// The text that clap prints instead of matching the arguments.
fn shown(alloc: Global, error: &Error) -> Result<Text, NoMemory> {
    let text = format!(in alloc; "{error}")?;
    if error.use_stderr() {
        Ok(Text::Refusal(text))
    } else {
        Ok(Text::Shown(text))
    }
}

// The text about a bad value of an option of a command.
fn bad_value<'a>(
    alloc: Global,
    argument: &str,
    option: &str,
    problem: &str,
    command: &str,
) -> Result<Asked<'a>, NoMemory> {
    let text = format!(in alloc;
        "error: invalid value '{argument}' for '{option}': {problem}\n\n\
         For more information, try 'hole {command} --help'.\n"
    )?;
    Ok(Asked::Told(Text::Refusal(text)))
}

// The text about an argument that isn't a number of bytes.
fn no_bytes<'a>(alloc: Global, argument: &str) -> Result<Asked<'a>, NoMemory> {
    let problem = "expected a number of bytes, for example 65536, 64K, 64M or 64G";
    bad_value(alloc, argument, "--crawl-memory <BYTES>", problem, "serve")
}

// The addresses that `--listen` names, or the text about a bad one.
fn read_addresses<'a>(
    alloc: Global,
    matches: &ArgMatches<'a>,
    command: &str,
) -> Result<Result<Vec<SocketAddr>, Asked<'a>>, NoMemory> {
    let option = "--listen <ADDRESS>";
    let arguments = matches.get_strs("listen").unwrap_or(&[]);
    let mut addresses = Vec::new(alloc);
    for argument in arguments {
        let Some(address) = address_of(argument) else {
            let problem = "expected an IP address, with or without a port";
            return Ok(Err(bad_value(alloc, argument, option, problem, command)?));
        };
        addresses.push(address)?;
    }
    if let Some(argument) = arguments.get(MAX_LISTENERS) {
        let problem = "there are more than 1024 addresses";
        return Ok(Err(bad_value(alloc, argument, option, problem, command)?));
    }
    Ok(Ok(addresses))
}

// The arguments of `check`, or the text about a bad one.
fn read_check<'a>(alloc: Global, check: &ArgMatches<'a>) -> Result<Asked<'a>, NoMemory> {
    let Some(settings) = check.get_str("SETTINGS") else {
        return Err(NoMemory);
    };
    match read_addresses(alloc, check, "check")? {
        Ok(addresses) => Ok(Asked::Check(Checking {
            settings,
            listens: check.contains_id("listen"),
            addresses,
            leave_out: check.get_flag("leave-out"),
            aliases: check.get_str("aliases"),
            all: check.get_flag("all"),
            strict: check.get_flag("strict"),
        })),
        Err(told) => Ok(told),
    }
}

// After how many seconds without progress a fetch fails.
fn seconds_of(serve: &ArgMatches<'_>) -> u64 {
    serve
        .get_one::<u64>("fetch-timeout")
        .unwrap_or(DEFAULT_FETCH_TIMEOUT)
}

// The arguments of `serve`, or the text about a bad one.
fn read_serve<'a>(alloc: Global, serve: &ArgMatches<'a>) -> Result<Asked<'a>, NoMemory> {
    let Some(settings) = serve.get_str("SETTINGS") else {
        return Err(NoMemory);
    };
    let addresses = match read_addresses(alloc, serve, "serve")? {
        Ok(addresses) => addresses,
        Err(told) => return Ok(told),
    };
    let mut crawl_memory = None;
    if let Some(argument) = serve.get_str("crawl-memory") {
        crawl_memory = bytes_of(argument);
        if crawl_memory.is_none() {
            return no_bytes(alloc, argument);
        }
    }
    Ok(Asked::Serve(Serving {
        settings,
        requests: serve.get_one::<u64>("requests"),
        clients_per_address: serve.get_one::<u64>("clients-per-address"),
        log: serve.get_str("log"),
        progress: serve.get_flag("progress"),
        crawl_memory,
        fetch_timeout: seconds_of(serve),
        fetch_pause: serve.get_one::<u64>("fetch-pause").unwrap_or(0),
        list_found: serve.get_str("list-found"),
        leave_out: serve.get_flag("leave-out"),
        aliases: serve.get_str("aliases"),
        addresses,
    }))
}

/// Reads the arguments of the program, without its own name.
///
/// # Errors
///
/// `NoMemory` (90).
pub fn read_arguments<'a>(alloc: Global, arguments: &'a [String]) -> Result<Asked<'a>, NoMemory> {
    let Ok(command) = program_command(alloc) else {
        return Err(NoMemory);
    };
    let matches = match command.try_get_matches_from(arguments) {
        Ok(matches) => matches,
        Err(error) => return Ok(Asked::Told(shown(alloc, &error)?)),
    };
    if let Some(check) = matches.subcommand_matches("check") {
        return read_check(alloc, check);
    }
    match matches.subcommand_matches("serve") {
        Some(serve) => read_serve(alloc, serve),
        None => Ok(Asked::Replay),
    }
}
