//! The subcommands, their words and their help.

ghost use Rattle.std.specs.Prelude.{◌≡◌, IfOk, None, false, codes};
ghost use Rattle.clap.specs.Words.{app_of, found_of, new_app, rows_of, rule_of};
ghost use Rattle.clap.specs.declared.builder.command.Command.TheViews.{out-Command};
ghost use Rattle.tq_cli.specs.Command.{HasNumber, IsGiven, IsGivenOrZero, MayHaveNumber, app_with_audit, app_with_shell, app_with_threads, levels_rule, rounds_rule, set_rule, shell_app, threads_app, threads_app_with_levels, threads_app_with_workers, top_app, tq_app, workers_rule};

use clap::error::ErrorKind;
use clap::{Arg, ArgAction, ArgMatches, Command, Error};
use std::alloc::{AllocError, Global};
use tq_shape::Levels;

/// What the words of the command line ask for.
#[derive(Clone, Copy, Debug, PartialEq, Eq)]
pub enum Words {
    /// Lines are answered, over a tree of so many levels.
    Shell {
        levels: Levels,
    },
    /// Scripts of clients are run in threads, over a tree of so many levels, while up to two workers mend stale copies in up
    /// to 1,000 rounds.
    Threads {
        levels: Levels,
        workers: u32,
        rounds: u32,
    },
    /// A journal file is audited.
    Audit,
    /// A journal file is written in the format of today.
    Upgrade,
}

/// Why words ask for nothing.
#[derive(Debug, Drop, thiserror::Error)]
pub enum WordsFault {
    /// Memory was refused.
    #[error("fault memory")]
    Memory,
    /// The words are no such call, or ask for help or the version. The error has the text to be shown.
    #[error(transparent)]
    Refused(Error),
}

impl From<AllocError> for WordsFault {
    ghost use Rattle.std.specs.Prelude.{◌≡◌};
    ghost use Rattle.tq_cli.specs.declared.command.WordsFault.TheVariants as variants;

    ghost from_gives = { λ _ fault. fault ≡ variants.Memory };

    fn from(_error: AllocError) -> WordsFault {
        WordsFault::Memory
    }
}

impl From<Error> for WordsFault {
    ghost use Rattle.std.specs.Prelude.{◌≡◌};
    ghost use Rattle.tq_cli.specs.Command.{fault_for};

    ghost from_gives = { λ error fault. fault ≡ fault_for error };

    fn from(error: Error) -> WordsFault {
        match error.kind() {
            ErrorKind::OutOfMemory => WordsFault::Memory,
            _ => WordsFault::Refused(error),
        }
    }
}

impl Words {
    ghost use Rattle.std.specs.Prelude.{IfOk, IfErr};
    ghost use Rattle.clap.specs.Words.{subcommand_rows_of};
    ghost use Rattle.tq_cli.specs.Command.{AsksFor, CanAsk, CanAskBare, CanAskOther, IsRead, IsRefused, texts_of, tq_app};

    /// Reads the words, of which the first is the name of the program.
    pub fn read(alloc: Global, words: &[String]) -> Result<Words, WordsFault>
        ensures read { IfOk result (IsRead (texts_of words.now)) }
        ensures refused { IfErr result (IsRefused tq_app (texts_of words.now)) }
    {
        let command = tq_command(alloc)?;
        let matches = command.try_get_matches_from(words)?;
        Ok(Words::of(&matches))
    }

    /// What the subcommand that was found asks for.
    fn of(matches: &ArgMatches) -> Words
        requires { CanAsk (subcommand_rows_of matches.now) }
        ensures { AsksFor (subcommand_rows_of matches.now) result }
    {
        match matches.subcommand_matches("shell") {
            Some(shell) => Words::Shell {
                levels: levels_of(shell),
            },
            None => Words::beside_shell(matches),
        }
    }

    /// What a subcommand other than `shell` asks for.
    fn beside_shell(matches: &ArgMatches) -> Words
        requires { CanAskOther (subcommand_rows_of matches.now) }
        ensures { AsksFor (subcommand_rows_of matches.now) result }
    {
        match matches.subcommand_matches("threads") {
            Some(threads) => Words::Threads {
                levels: levels_of(threads),
                workers: workers_of(threads),
                rounds: rounds_of(threads),
            },
            None => Words::beside_threads(matches),
        }
    }

    /// What a subcommand without options asks for.
    fn beside_threads(matches: &ArgMatches) -> Words
        requires { CanAskBare (subcommand_rows_of matches.now) }
        ensures { AsksFor (subcommand_rows_of matches.now) result }
    {
        match matches.subcommand_matches("audit") {
            Some(_) => Words::Audit,
            None => Words::Upgrade,
        }
    }
}

/// The levels that a subcommand was given.
pub(crate) fn levels_of(matches: &ArgMatches) -> Levels
    requires { HasNumber (codes "levels") 1 10 (rows_of (found_of matches.now)) }
    ensures { IsGiven (codes "levels") (rows_of (found_of matches.now)) result }
{
    let Some(count) = matches.get_one::<u32>("levels") else {
        unreachable!()
    };
    match Levels::new(count) {
        Some(levels) => levels,
        None => unreachable!(),
    }
}

/// The workers that a subcommand was given, or none.
fn workers_of(matches: &ArgMatches) -> u32
    requires { MayHaveNumber (codes "workers") 2 (rows_of (found_of matches.now)) }
    ensures { IsGivenOrZero (codes "workers") 2 (rows_of (found_of matches.now)) result }
{
    matches.get_one::<u32>("workers").unwrap_or(0)
}

/// The rounds that a subcommand was given, or none.
fn rounds_of(matches: &ArgMatches) -> u32
    requires { MayHaveNumber (codes "rounds") 1000 (rows_of (found_of matches.now)) }
    ensures { IsGivenOrZero (codes "rounds") 1000 (rows_of (found_of matches.now)) result }
{
    matches.get_one::<u32>("rounds").unwrap_or(0)
}

/// The program's words.
fn tq_command<'a>(alloc: Global) -> Result<Command<'a>, AllocError>
    ensures { IfOk result (λ command. app_of command ≡ tq_app) }
{
    let command = command_with_audit(alloc)?;
    let usage = "tq upgrade < FILE > NEW";
    let about = "Reads a journal file of any format and writes it in the newest";
    let upgrade = used_command(alloc, "upgrade", usage, about, SHORT_UPGRADES, UPGRADES);
    command.subcommand(upgrade)
}

/// The program with the subcommands `shell`, `threads` and `audit`.
fn command_with_audit<'a>(alloc: Global) -> Result<Command<'a>, AllocError>
    ensures { IfOk result (λ command. app_of command ≡ app_with_audit) }
{
    let command = command_with_threads(alloc)?;
    let usage = "tq audit < FILE";
    let about = "Reads a journal file and says whether one run explains it";
    let audit = used_command(alloc, "audit", usage, about, SHORT_AUDITS, AUDITS);
    command.subcommand(audit)
}

/// The program with the subcommands `shell` and `threads`.
fn command_with_threads<'a>(alloc: Global) -> Result<Command<'a>, AllocError>
    ensures { IfOk result (λ command. app_of command ≡ app_with_threads) }
{
    let command = command_with_shell(alloc)?;
    let threads = threads_command(alloc)?;
    command.subcommand(threads)
}

/// The program with the subcommand `shell` alone.
fn command_with_shell<'a>(alloc: Global) -> Result<Command<'a>, AllocError>
    ensures { IfOk result (λ command. app_of command ≡ app_with_shell) }
{
    let shell = shell_command(alloc)?;
    let top = top_command(alloc, "tq", ABOUT, FIRST).long_about(TREE);
    top.subcommand(shell)
}

/// A program of that name without its subcommands.
pub(crate) fn top_command<'a>(
    alloc: Global,
    name: &'a str,
    about: &'a str,
    first: &'a str,
) -> Command<'a>
    ensures { app_of result ≡ top_app name.entry.now }
{
    Command::new(alloc, name)
        .about(about)
        .after_help(first)
        .version("0.1.0")
        .subcommand_required(true)
        .disable_help_subcommand(true)
}

/// A subcommand of that name with its help, and no arguments.
pub(crate) fn bare_command<'a>(
    alloc: Global,
    name: &'a str,
    about: &'a str,
    short: &'a str,
    long: &'a str,
) -> Command<'a>
    ensures app { app_of result ≡ new_app name.entry.now }
    ensures local { (out-Command result).has_globals ≡ false }
{
    Command::new(alloc, name)
        .about(about)
        .after_help(short)
        .after_long_help(long)
}

/// The same with a usage of its own.
pub(crate) fn used_command<'a>(
    alloc: Global,
    name: &'a str,
    usage: &'a str,
    about: &'a str,
    short: &'a str,
    long: &'a str,
) -> Command<'a>
    ensures app { app_of result ≡ new_app name.entry.now }
    ensures local { (out-Command result).has_globals ≡ false }
{
    bare_command(alloc, name, about, short, long).override_usage(usage)
}

/// `shell --levels N`.
fn shell_command<'a>(alloc: Global) -> Result<Command<'a>, AllocError>
    ensures app { IfOk result (λ command. app_of command ≡ shell_app) }
    ensures local { IfOk result (λ command. (out-Command command).has_globals ≡ false) }
{
    let about = "Reads lines from standard input and answers each";
    let command = bare_command(alloc, "shell", about, SHORT_LINES, LINES);
    command.arg(levels_argument(alloc))
}

/// `threads --levels N [--workers W] [--rounds R]`.
fn threads_command<'a>(alloc: Global) -> Result<Command<'a>, AllocError>
    ensures app { IfOk result (λ command. app_of command ≡ threads_app) }
    ensures local { IfOk result (λ command. (out-Command command).has_globals ≡ false) }
{
    let command = threads_with_workers(alloc)?;
    command.arg(rounds_argument(alloc))
}

/// `threads --levels N [--workers W]`.
fn threads_with_workers<'a>(alloc: Global) -> Result<Command<'a>, AllocError>
    ensures app { IfOk result (λ command. app_of command ≡ threads_app_with_workers) }
    ensures local { IfOk result (λ command. (out-Command command).has_globals ≡ false) }
{
    let command = threads_with_levels(alloc)?;
    command.arg(workers_argument(alloc))
}

/// `threads --levels N`.
fn threads_with_levels<'a>(alloc: Global) -> Result<Command<'a>, AllocError>
    ensures app { IfOk result (λ command. app_of command ≡ threads_app_with_levels) }
    ensures local { IfOk result (λ command. (out-Command command).has_globals ≡ false) }
{
    let about = "Reads scripts of clients from standard input and runs them in threads";
    let command = bare_command(alloc, "threads", about, SHORT_SCRIPTS, SCRIPTS);
    command.arg(levels_argument(alloc))
}

/// An argument that is given a value, which help calls by that name.
pub(crate) fn set_argument<'a>(
    alloc: Global,
    id: &'a str,
    name: &'a str,
    help: &'a str,
    required: bool,
) -> Arg<'a>
    ensures rule { rule_of result ≡ set_rule id.entry.now None 1 None required }
    ensures local { result.global ≡ false }
{
    Arg::new(alloc, id)
        .value_name(name)
        .help(help)
        .required(required)
        .action(ArgAction::Set)
}

pub(crate) fn levels_argument<'a>(alloc: Global) -> Arg<'a>
    ensures rule { rule_of result ≡ levels_rule }
    ensures local { result.global ≡ false }
{
    let help = "The levels of the tree, 1 to 10";
    set_argument(alloc, "levels", "N", help, true)
        .long("levels")
        .value_parser(clap::value_parser!(u32).range(1..=10))
}

fn workers_argument<'a>(alloc: Global) -> Arg<'a>
    ensures rule { rule_of result ≡ workers_rule }
    ensures local { result.global ≡ false }
{
    let help = "Threads that mend stale copies, 0 to 2 (default 0)";
    set_argument(alloc, "workers", "W", help, false)
        .long("workers")
        .value_parser(clap::value_parser!(u32).range(0..=2))
}

fn rounds_argument<'a>(alloc: Global) -> Arg<'a>
    ensures rule { rule_of result ≡ rounds_rule }
    ensures local { result.global ≡ false }
{
    let help = "How often they look for such copies, 0 to 1000 (default 0)";
    set_argument(alloc, "rounds", "R", help, false)
        .long("rounds")
        .value_parser(clap::value_parser!(u32).range(0..=1_000))
}

const ABOUT: &str = "\
Keeps whole files in copies on the servers of a tree, and runs transactions
over its quorums.";

const TREE: &str = "\
Keeps whole files in copies on the servers of a tree, and runs transactions
over its quorums.

A tree of N levels has the servers 1 to 2^N - 1, and under server S the servers
2S and 2S + 1. A quorum is a server with a quorum of one of its sides, or a
quorum of each side without it; a server with no sides is a quorum by itself.
Any two quorums have a server in common.";

const FIRST: &str = "\
A first session:
  printf 'begin\\nwrite 1 plan v1\\ncommit 1\\n' | tq shell --levels 2
prints
  begun 1
  write plan version 1 at 1 2
  committed 1

'tq shell --help' has the lines of the shell and the rules for names and texts.";

const SHORT_LINES: &str = "\
Lines (T a transaction, F a file, S a server; tq shell --help explains each):
  begin                                    a transaction: begun T
  read T F      write T F TEXT             at the quorum of least cost
  commit T      abort T      resolve T     its end
  prepare T S   decide T     apply T S     the steps of commit, one by one
  prepare T S crash K   apply T S crash K  the server stops inside that step
  down S        up S                       the server crashes or returns
  cost S C      cost S R W                 its costs for reading and writing
  choose [read|write]                      the quorum that is taken next
  board         refresh                    the tables; mends stale copies
F is 1 to 32 of a-z 0-9 . _ -, the first a letter; TEXT is the rest of its line.
Each line is answered as soon as it is read; bad line says that it is none of
these. Ctrl-D ends the session.";

const LINES: &str = "\
Lines of the shell (T a transaction, F a file, S a server; C, R and W costs):
  begin             begins a transaction, and answers its number
  read T F          reads a file under shared locks at the quorum of least cost
                    for reading
  write T F TEXT    writes the text to a file under exclusive locks at the
                    quorum of least cost for writing
  commit T          gathers the votes, asks the desk, and tells the servers
  abort T           ends the transaction, and releases its locks
  prepare T S       asks one server for its vote
  decide T          asks the desk to commit, once all votes are there
  apply T S         tells one server how the transaction ended
  prepare T S crash K, apply T S crash K
                    the server stops inside that step, behind the first K of
                    the stable records that it writes, and is marked down
  resolve T         asks the desk how it ended: what is not decided is aborted
  down S, up S      the server crashes or returns, and is marked so
  cost S C          the server costs C from now on, 1 to 1000000 (at first 1)
  cost S R W        it costs R for reading and W for writing
  choose            the quorum of least cost for reading among the servers that
  choose read       are up, with its cost, or, where no quorum is up, the
                    servers that block every one
  choose write      the same for writing
  board             the tables: quorums, files, locks and open votes
  refresh           mends the stale copies that can be mended now

Names and texts:
  A file name has 1 to 32 bytes of a-z 0-9 . _ -, the first of them a letter.
  TEXT is all that follows the one space behind F, 0 to 4000 bytes from space
  to ~, and it may be empty. Words stand apart by one space; numbers have no
  sign and no leading zeros. An empty line answers nothing.
  bad line          the line is none of these, has another byte, or is longer
                    than 4200 bytes; nothing was asked, the next line goes on
  A refusal ends its line, not the session: what was done before it stays.

Lines are read from standard input, and each is answered as soon as it was read.
The end of the input, Ctrl-D at a terminal, ends the session; what it kept is
gone then.

Example:
  printf 'begin\\nwrite 1 plan v1\\ncommit 1\\n' | tq shell --levels 2
prints
  begun 1
  write plan version 1 at 1 2
  committed 1

Status: 0 at the end of the input, whatever was refused; 1 after a fault, which
is the last line: fault memory (it was refused), fault read or fault write (a
device failed), fault too long (more than 16777216 bytes); 2 where the words of
the command are refused. tq audit has the statuses 3 and 4 too.";

const SHORT_SCRIPTS: &str = "\
A line client begins the next client's script, 1 to 16 in all. Its lines:
  begin         read F       write F TEXT    commit    abort
  down S        up S         cost S C        cost S R W
  choose        choose read  choose write
When all have ended, the journals of all parts are printed as one line of JSON.

Example:
  printf 'client\\nbegin\\nwrite plan v1\\ncommit\\nclient\\nchoose\\n' |
    tq threads --levels 2 | tq audit
prints
  explained 10";

const SCRIPTS: &str = "\
Each client runs its script in a thread of its own. A line client begins the
next client's script, 1 to 16 in all; nothing but empty lines stands before the
first. The lines of a script (F a file, S a server; C, R and W costs):
  begin             begins the client's transaction; one that is open is aborted
                    first
  read F            reads a file under shared locks at the quorum of least cost
                    for reading
  write F TEXT      writes the text to a file under exclusive locks at the
                    quorum of least cost for writing
  commit            gathers the votes, asks the desk, and tells the servers
  abort             ends the transaction, and releases its locks
  down S, up S      the server crashes or returns, and is marked so
  cost S C          the server costs C from now on, 1 to 1000000 (at first 1)
  cost S R W        it costs R for reading and W for writing
  choose            the view chooses a quorum for reading; so does choose read
  choose write      the view chooses a quorum for writing
Names and texts are those of tq shell --help. Without an open transaction read,
write, commit and abort do nothing. One that is refused a read, a write or its
commit is aborted, and so is one that is open when its script ends.

R times the journals of all parts are read on, and a job is put for each stale
copy that can be mended; W threads do the jobs. When all threads have ended,
the journals of all parts are printed as one line of JSON, which tq audit reads.

Example:
  printf 'client\\nbegin\\nwrite plan v1\\ncommit\\nclient\\nchoose\\n' |
    tq threads --levels 2 | tq audit
prints
  explained 10

Status: 0 where the journals are printed; 1 after a fault, which is printed:
fault memory, fault read, fault write, or fault close where no one run explains
the journals or a client was told something else; 2 where the words are refused,
or for a bad script, where nothing is run and bad script line N is printed: a
line is none of these, stands before the first client, begins a client too many,
or passes 16777216 bytes in all. Where no client comes N is 1.";

const SHORT_AUDITS: &str = "\
Answers, in one line, with the status:
  explained E                 0  one run makes all E entries
  wrong P entry N             3  the part P does not give this reply
  stuck C.. desk D view V     3  there is no order of the entries; at most so
                                 many of each part have one
  unreadable                  4  it is no journal file
  fault ..                    1  want of memory, a failed device, too long

Example:
  echo client | tq threads --levels 1 | tq audit
prints
  explained 0";

const AUDITS: &str = "\
A journal file tells, as JSON, what each part of a system was asked and what it
replied, in format 2 or in the older format 1. One run explains it where each
reply is the one that the part gives, and the asks can be put in one order so
that each finds before it the entries of other parts that it cites. The file is
read from standard input.

Answers, in one line:
  explained E                 such an order exists, of all E entries
  wrong P entry N             the part (server S, desk or view) does not give
                              this reply, and gives all replies before it
  stuck C.. desk D view V     all replies are given, but there is no such order;
                              at most so many entries of each part have one
  unreadable                  it is no journal file

Example:
  printf 'client\\nbegin\\nwrite plan v1\\ncommit\\n' |
    tq threads --levels 1 | tq audit
prints
  explained 6

Status: 0 explained, 3 wrong or stuck, 4 unreadable, 1 after a fault, which is
printed: fault memory, fault read, fault write, or fault too long (more than
67108864 bytes); 2 where the words of the command are refused.";

const SHORT_UPGRADES: &str = "\
Writes the journals in format 2, as one line, with the status 0; a file of
format 1 has one cost for each server, and its choices are for reading. Or:
  unreadable                  4  it is no journal file
  fault ..                    1  want of memory, a failed device, too long

Example:
  echo client | tq threads --levels 1 | tq upgrade | tq audit
prints
  explained 0";

const UPGRADES: &str = "\
Journal files are of format 1 or 2. Format 1 is that of older programs: a server
has one cost, a tree up to 6 levels, a content up to 1000 bytes. The file is
read from standard input, and its journals are written in format 2, as one line:
a cost of format 1 becomes both costs, and a choice is for reading. A file of
format 2 is written anew: without spaces, the members of each object in the
order of their names, members of other names left out. Whether its replies are
right is not judged: tq audit does that, for files of both formats.

Answers, in one line:
  {\"desk\":..                  the journals
  unreadable                  it is no journal file

Example:
  printf 'client\\nbegin\\nwrite plan v1\\ncommit\\n' |
    tq threads --levels 1 | tq upgrade | tq audit
prints
  explained 6

Status: 0 written, 4 unreadable, 1 after a fault, which is printed: fault
memory, fault read, fault write, or fault too long (more than 67108864 bytes);
2 where the words of the command are refused. What is written may be longer
than what was read, and then too long for tq audit.";
