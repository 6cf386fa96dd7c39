//! The words of `tqd`.
ghost use Rattle.std.specs.Prelude.{◌≡◌, ℕ, IfOk, IfErr, Some, codes, drop, false};
ghost use Rattle.clap.specs.Words.{app_of, found_of, many_of, rows_of, rule_of, subcommand_rows_of, values_left};
ghost use Rattle.clap.specs.declared.builder.command.Command.TheViews.{out-Command};
ghost use Rattle.tq_cli.specs.Command.{HasNumber, IsGiven, IsRefused, texts_of};
ghost use Rattle.tq_cli.specs.TqdWords.{AreLimits, AreOptions, AsksFor, CanAsk, CanAskLast, CanAskPart, CanBePart, HasLimit, HasLimits, HasText, IsRead, IsText, app_with_desk, app_with_rehearsal, app_with_server, first_number, limits_rule, log_rule, part_app, part_app_with_log, rehearse_app, server_app, server_rule, tqd_app};

use crate::command::{
    WordsFault, levels_argument, levels_of, set_argument, top_command, used_command,
};
use clap::parser::ValuesRef;
use clap::{Arg, ArgMatches, Command};
use std::alloc::{AllocError, Global};
use tq_shape::{Levels, MOST_ENTRIES, MOST_FILES, MOST_OPS};

/// What the words of `tqd` ask for.
#[derive(Clone, Copy, Debug)]
pub enum TqdWords<'a> {
    /// Lines of the shell are answered over the journals of a file.
    Rehearsal {
        file: &'a str,
    },
    /// The server of that number answers asks.
    Server {
        number: u32,
        options: PartOptions<'a>,
    },
    /// The desk answers asks.
    Desk {
        options: PartOptions<'a>,
    },
    /// The view answers asks.
    View {
        options: PartOptions<'a>,
    },
}

/// What the options of a part say: its tree, the file of its log, and its limits.
#[derive(Clone, Copy, Debug)]
pub struct PartOptions<'a> {
    pub levels: Levels,
    pub log: &'a str,
    pub limits: GivenLimits,
}

/// The most files, operations and entries, each from 1 to 1,000,000 where they were given.
#[derive(Clone, Copy, Debug)]
pub struct GivenLimits {
    pub files: u32,
    pub ops: u32,
    pub entries: u32,
}

impl<'a> TqdWords<'a> {
    /// Reads the words, of which the first is the name of the program.
    pub fn read(alloc: Global, words: &'a [String]) -> Result<TqdWords<'a>, WordsFault>
        ensures read { IfOk result (IsRead (texts_of words.now)) }
        ensures refused { IfErr result (IsRefused tqd_app (texts_of words.now)) }
    {
        let command = tqd_command(alloc)?;
        let matches = command.try_get_matches_from(words)?;
        Ok(TqdWords::of(&matches))
    }

    /// What the subcommand that was found asks for.
    fn of(matches: &ArgMatches<'a>) -> TqdWords<'a>
        requires { CanAsk (subcommand_rows_of matches.now) }
        ensures { AsksFor (subcommand_rows_of matches.now) result }
    {
        match matches.subcommand_matches("rehearse") {
            Some(rehearsal) => TqdWords::Rehearsal {
                file: text_in(rehearsal, "file"),
            },
            None => TqdWords::of_part(matches),
        }
    }

    /// What a subcommand other than `rehearse` asks for.
    fn of_part(matches: &ArgMatches<'a>) -> TqdWords<'a>
        requires { CanAskPart (subcommand_rows_of matches.now) }
        ensures { AsksFor (subcommand_rows_of matches.now) result }
    {
        match matches.subcommand_matches("server") {
            Some(server) => TqdWords::Server {
                number: number_of(server),
                options: options_of(server),
            },
            None => TqdWords::of_last(matches),
        }
    }

    /// What `desk` or `view` asks for.
    fn of_last(matches: &ArgMatches<'a>) -> TqdWords<'a>
        requires { CanAskLast (subcommand_rows_of matches.now) }
        ensures { AsksFor (subcommand_rows_of matches.now) result }
    {
        if let Some(desk) = matches.subcommand_matches("desk") {
            return TqdWords::Desk {
                options: options_of(desk),
            };
        }
        match matches.subcommand_matches("view") {
            Some(view) => TqdWords::View {
                options: options_of(view),
            },
            None => unreachable!(),
        }
    }
}

/// The text that was given under that name.
fn text_in<'a>(matches: &ArgMatches<'a>, name: &str) -> &'a str
    requires { HasText name.now (rows_of (found_of matches.now)) }
    ensures { IsText name.now (rows_of (found_of matches.now)) result.now }
{
    match matches.get_str(name) {
        Some(text) => text,
        None => unreachable!(),
    }
}

/// The number of the server.
fn number_of(matches: &ArgMatches) -> u32
    requires { HasNumber (codes "server") 1 1023 (rows_of (found_of matches.now)) }
    ensures { IsGiven (codes "server") (rows_of (found_of matches.now)) result }
{
    match matches.get_one::<u32>("server") {
        Some(number) => number,
        None => unreachable!(),
    }
}

/// What the options of a part say.
fn options_of<'a>(matches: &ArgMatches<'a>) -> PartOptions<'a>
    requires { CanBePart (rows_of (found_of matches.now)) }
    ensures { AreOptions (rows_of (found_of matches.now)) result }
{
    PartOptions {
        levels: levels_of(matches),
        log: text_in(matches, "log"),
        limits: limits_of(matches),
    }
}

/// The limits that were given, or the greatest.
fn limits_of(matches: &ArgMatches) -> GivenLimits
    requires { HasLimits (many_of (codes "limits") (rows_of (found_of matches.now))) }
    ensures { AreLimits (many_of (codes "limits") (rows_of (found_of matches.now))) result }
{
    match matches.get_many::<u32>("limits") {
        Some(numbers) => limits_in(numbers),
        None => GivenLimits {
            files: MOST_FILES,
            ops: MOST_OPS,
            entries: MOST_ENTRIES,
        },
    }
}

/// The limits that the first three numbers are.
fn limits_in(given: ValuesRef<'_, '_, u32>) -> GivenLimits
    requires { HasLimits (Some (values_left given)) }
    ensures { AreLimits (Some (values_left given.entry)) result }
{
    let mut numbers = given;
    let files = next_limit(&mut numbers);
    let ops = next_limit(&mut numbers);
    let entries = next_limit(&mut numbers);
    GivenLimits {
        files,
        ops,
        entries,
    }
}

/// The first of the numbers that are left.
fn next_limit(numbers: &mut ValuesRef<'_, '_, u32>) -> u32
    requires { HasLimit (values_left numbers.old) }
    ensures first { (most : ℕ) → result ≡ first_number most (Some (values_left numbers.old)) }
    ensures rest { values_left numbers.new ≡ drop 1 (values_left numbers.old) }
{
    let Some(read) = numbers.next() else {
        unreachable!()
    };
    match read {
        Ok(number) => number,
        Err(_) => unreachable!(),
    }
}

/// The program's words.
fn tqd_command<'a>(alloc: Global) -> Result<Command<'a>, AllocError>
    ensures { IfOk result (λ command. app_of command ≡ tqd_app) }
{
    let command = command_with_desk(alloc)?;
    let view = part_command(alloc, "view", ABOUT_VIEW, VIEW_USAGE)?;
    command.subcommand(view)
}

/// The program with the subcommands `rehearse`, `server` and `desk`.
fn command_with_desk<'a>(alloc: Global) -> Result<Command<'a>, AllocError>
    ensures { IfOk result (λ command. app_of command ≡ app_with_desk) }
{
    let command = command_with_server(alloc)?;
    let desk = part_command(alloc, "desk", ABOUT_DESK, DESK_USAGE)?;
    command.subcommand(desk)
}

/// The program with the subcommands `rehearse` and `server`.
fn command_with_server<'a>(alloc: Global) -> Result<Command<'a>, AllocError>
    ensures { IfOk result (λ command. app_of command ≡ app_with_server) }
{
    let command = command_with_rehearsal(alloc)?;
    let server = server_command(alloc)?;
    command.subcommand(server)
}

/// The program with the subcommand `rehearse` alone.
fn command_with_rehearsal<'a>(alloc: Global) -> Result<Command<'a>, AllocError>
    ensures { IfOk result (λ command. app_of command ≡ app_with_rehearsal) }
{
    let rehearse = rehearse_command(alloc)?;
    top_command(alloc, "tqd", ABOUT, FIRST).subcommand(rehearse)
}

/// `rehearse FILE`.
fn rehearse_command<'a>(alloc: Global) -> Result<Command<'a>, AllocError>
    ensures app { IfOk result (λ command. app_of command ≡ rehearse_app) }
    ensures local { IfOk result (λ command. (out-Command command).has_globals ≡ false) }
{
    let usage = "tqd rehearse FILE < LINES";
    let about = "Answers lines over the journals of a file";
    let command = used_command(alloc, "rehearse", usage, about, SHORT_REHEARSAL, REHEARSAL);
    let help = "A journal file, as tq threads prints it";
    command.arg(set_argument(alloc, "file", "FILE", help, true))
}

/// `server S`, with the options of a part.
fn server_command<'a>(alloc: Global) -> Result<Command<'a>, AllocError>
    ensures app { IfOk result (λ command. app_of command ≡ server_app) }
    ensures local { IfOk result (λ command. (out-Command command).has_globals ≡ false) }
{
    let command = part_command(alloc, "server", ABOUT_SERVER, SERVER_USAGE)?;
    command.arg(server_argument(alloc))
}

/// A part with its options: `NAME --levels N --log FILE [--limits FILES OPS ENTRIES]`.
fn part_command<'a>(
    alloc: Global,
    name: &'a str,
    about: &'a str,
    usage: &'a str,
) -> Result<Command<'a>, AllocError>
    ensures app { IfOk result (λ command. app_of command ≡ part_app name.entry.now) }
    ensures local { IfOk result (λ command. (out-Command command).has_globals ≡ false) }
{
    let command = part_with_log(alloc, name, about, usage)?;
    command.arg(limits_argument(alloc))
}

/// `NAME --levels N --log FILE`.
fn part_with_log<'a>(
    alloc: Global,
    name: &'a str,
    about: &'a str,
    usage: &'a str,
) -> Result<Command<'a>, AllocError>
    ensures app { IfOk result (λ command. app_of command ≡ part_app_with_log name.entry.now) }
    ensures local { IfOk result (λ command. (out-Command command).has_globals ≡ false) }
{
    let command = used_command(alloc, name, usage, about, SHORT_HOSTS, HOSTS);
    let command = command.arg(levels_argument(alloc))?;
    command.arg(log_argument(alloc))
}

fn server_argument<'a>(alloc: Global) -> Arg<'a>
    ensures rule { rule_of result ≡ server_rule }
    ensures local { result.global ≡ false }
{
    let help = "The number of the server, 1 to 2^N - 1";
    let parser = clap::value_parser!(u32).range(1..=1_023);
    set_argument(alloc, "server", "S", help, true).value_parser(parser)
}

fn log_argument<'a>(alloc: Global) -> Arg<'a>
    ensures rule { rule_of result ≡ log_rule }
    ensures local { result.global ≡ false }
{
    let help = "The file of its log, which is made where it is missing";
    set_argument(alloc, "log", "FILE", help, true).long("log")
}

fn limits_argument<'a>(alloc: Global) -> Arg<'a>
    ensures rule { rule_of result ≡ limits_rule }
    ensures local { result.global ≡ false }
{
    let help = "The most of each, 1 up to 1000 64 1000000 (the default)";
    set_argument(alloc, "limits", "LIMIT", help, false)
        .long("limits")
        .value_names(&["FILES", "OPS", "ENTRIES"])
        .value_parser(clap::value_parser!(u32).range(1..=1_000_000))
}

const ABOUT: &str = "\
Runs a part of a system as a process with a durable log, or answers lines over
the journals of a system.";

const FIRST: &str = "\
A first rehearsal:
  printf 'client\\nbegin\\nwrite plan v1\\ncommit\\n' | tq threads --levels 2 > file
  echo board | tqd rehearse file
prints the tables of the system whose journals these are.";

const ABOUT_SERVER: &str = "Answers asks of a server, whose entries it keeps in a log";

const ABOUT_DESK: &str = "Answers asks of the desk, whose entries it keeps in a log";

const ABOUT_VIEW: &str = "Answers asks of the view, whose entries it keeps in a log";

const SERVER_USAGE: &str = "tqd server S --levels N --log FILE [--limits FILES OPS ENTRIES]";

const DESK_USAGE: &str = "tqd desk --levels N --log FILE [--limits FILES OPS ENTRIES]";

const VIEW_USAGE: &str = "tqd view --levels N --log FILE [--limits FILES OPS ENTRIES]";

const SHORT_HOSTS: &str = "\
Each line of the input is one ask, as journal files tell it, and is answered by
one line, once the entry stands in the log and is synced:
  {\"number\":N,\"reply\":{..}}  the entry that was made, and its number
  {\"bad\":\"ask\"}              the line is no ask of this part
  {\"full\":true}              the journal has as many entries as its limit
  {\"memory\":true}            memory was refused, and no entry made
Status: 0 at the end of the input; 3 wrong entry N, 4 unreadable entry N of the
log; 1 after a fault, fault locked where another host has the log.";

const HOSTS: &str = "\
Each line of the input is one ask of the part, as journal files of format 2 tell
it, and is answered by one line, in order:
  {\"number\":N,\"reply\":{..}}  the entry that was made, and its number
  {\"bad\":\"ask\"}              the line is no ask of this part
  {\"full\":true}              the journal has as many entries as its limit
  {\"memory\":true}            memory was refused, and no entry made
The entry stands in the log and is synced before a byte of its answer is
written; asks that are read at once are synced once. What no line feed ends at
the end of the input is no ask.

The log has a line for each entry, {\"ask\":..,\"reply\":..}. At the start they are
replayed, and the part goes on behind them. What stands behind the last line
feed was told to nobody, and is cut off. Give the same levels and limits at each
start: a part that would not have given an entry is refused.

Example:
  echo '{\"is\":\"begin\"}' | tqd desk --levels 2 --log desk.log
prints, the first time
  {\"number\":1,\"reply\":{\"is\":\"txn\",\"txn\":1}}

Status: 0 at the end of the input; 3 wrong entry N (the part does not give entry
N of the log there), 4 unreadable entry N (it is none); 1 after a fault, which
is the last line: fault locked (another host has the log), fault log (it is no
file that can be read, written and synced), fault read, fault write, fault
memory, or fault too long (more than 67108864 bytes of an ask); 2 where the
words of the command are refused.";

const SHORT_REHEARSAL: &str = "\
The lines are those of tq shell (tq shell --help explains them), read from
standard input. Where no one run explains the journals no line is read, and what
tq audit says of them is printed, with its status:
  wrong P entry N             3  the part P does not give this reply
  stuck C.. desk D view V     3  there is no order of the entries
  unreadable                  4  it is no journal file
  fault ..                    1  want of memory, a failed device, too long";

const REHEARSAL: &str = "\
The journals of a system are those of all its parts: FILE is of format 1 or 2,
from whoever wrote it. Where one run explains them, a service that has taken
them answers the lines of tq shell (tq shell --help explains these), read from
standard input, as if it had been asked all that they tell. Nothing is written
to FILE.

Transactions that the journals tell of are not the session's own: their lines
are answered by no such transaction T, and begin goes on behind their numbers.
Locks and votes that they left are there: down S and up S drop the locks of S
that no vote keeps. The limits are those of the file.

Where no one run explains the journals no line is read, and what tq audit says
of them is printed.

Example:
  printf 'client\\nbegin\\nwrite plan v1\\ncommit\\n' | tq threads --levels 2 > file
  printf 'down 3\\nbegin\\nread 2 plan\\n' | tqd rehearse file
prints
  down 3
  begun 2
  plan version 1 from 1 2 [v1]

Status: 0 at the end of the lines, whatever was refused; 3 wrong or stuck, 4
unreadable; 1 after a fault, which is the last line: fault memory, fault read
(the file or the lines cannot be read), fault write, or fault too long (more
than 67108864 bytes of the file, or 16777216 of lines); 2 where the words of the
command are refused.";
