//! The command line.

ghost use Rattle.std.specs.Prelude.{◌≡◌, map, false, IfOk, IfErr, option_map, pos, string_bytes};
ghost use Rattle.clap.specs.Words.{app_of, first_of, found_of, new_app, rows_of, rule_of, with_rule};
ghost use Rattle.clap.specs.declared.builder.value_parser.ValueParser.TheVariants.{Signed};
ghost use Rattle.clap.specs.declared.builder.command.Command.TheViews.{out-Command as fields_of};
ghost use Rattle.fbl_program.specs.CommandLines.{AreNames, AreWorkers, IsCommandLine, IsFlag, IsJobAt, IsJobOf, IsMisuseOf, IsRefusedFor, IsTaskAt, draw_app, flag_rule, input_rule, option_rule, play_app, program, texts_in, top_app, with_player, with_players, with_reader, with_shared, workers_rule};

use crate::job::{Job, Question, RunTask, ScriptTask, Task};
use clap::builder::ValueParser;
use clap::{Arg, ArgAction, ArgMatches, Command};
use std::alloc::{AllocError, Global};

/// What the program is for.
const PROGRAM: &str =
    "Causal message logging with proved recovery: plays, shows and records scripts of a group, and merges, audits, checks and draws recorded traces.";

/// The exit statuses, and where a fault is told.
const STATUSES: &str = "\
Exit statuses: 0 done; 1 a checked dump is unsafe or a recovery in it left orphans, or a command of a strict play was
refused; 2 a fault of the command line, the script or the dump; 3 a read or a write failed; 4 out of memory. A fault is
told on standard error, and more of it with --explain behind the command.";

/// What `play` does.
const PLAY: &str = "Plays a script, which is JSON, and prints each command's lines";

/// A first script.
const PLAY_EXAMPLE: &str = r#"A first script: member 1 gets a message, is struck and recovers.

  echo '{"version":2,"members":3,"f":1,"behaviour":"relay","start":[[0,1,5,1]],
   "commands":[["deliver",1,0],["deliver",2,1],["strike",[1]],["recover"],["report"]]}' | fblrun play"#;

/// What `show` does.
const SHOW: &str = "Plays a script, which is JSON, and draws its history, as SVG";

/// A first picture of a history.
const SHOW_EXAMPLE: &str =
    r#"The picture has a line for each member, dashed while it is struck, and a column for each event that was ever made, each
strike, recovery and checkpoint, in the order in which they came. What a recovery undid is crossed, and stays where it was.
A first one: member 1 gets a message, is struck and recovers.

  echo '{"version":2,"members":3,"f":1,"behaviour":"relay","start":[[0,1,5,1]],
   "commands":[["deliver",1,0],["deliver",2,1],["strike",[1]],["recover"]]}' | fblrun show -o run.svg"#;

/// What `record` does.
const RECORD: &str =
    "Plays a script, which is JSON, and writes its run as a log, a dump of version 2, as its members would have written it";

/// A first record.
const RECORD_EXAMPLE: &str =
    r#"The log says from when on who holds what, what checkpoints store, and whom recoveries brought back. A check of it says "safe".
A first one: member 1 gets a message, is struck and recovers.

  echo '{"version":2,"members":3,"f":1,"behaviour":"relay","start":[[0,1,5,1]],
   "commands":[["deliver",1,0],["deliver",2,1],["strike",[1]],["recover"]]}' | fblrun record | fblrun check"#;

/// What `merge` does.
const MERGE: &str =
    "Merges dumps, which are JSON, such as each member's own log, and prints one dump of all their events, in an order";

/// How a run is recorded by its members.
const MERGE_EXAMPLE: &str =
    r#"Each file is a dump with the events of some members, in each member's own order. The files agree on members and f; who
holds what, and who is struck, is taken from all of them. Which order is found makes no difference to an audit or a check, which
merge several files themselves:

  fblrun check member-0.json member-1.json member-2.json

A log, a dump of version 2, may also be lines, as a process can write them: the object without its events, and on each further
line an event, or a list of events. A process that crashes and comes back writes a file for each of its lives, which may
be named in any order."#;

/// What `audit` does.
const AUDIT: &str =
    "Audits a dump, which is JSON, and prints which receipts are lost and which members are orphans";

/// Where a dump comes from.
const AUDIT_EXAMPLE: &str =
    r#"A dump is a line that the command ["dump",[1]] of a script prints. It has the trace, who holds which
determinant, and the members that are struck."#;

/// What `check` does.
const CHECK: &str =
    "Checks a dump, which is JSON, and prints which receipts could be lost, or were undone, with an orphan left";

/// What a check asks.
const CHECK_EXAMPLE: &str =
    r#"It asks of all sets of members that have the struck ones and are at most f, or as many as are struck: where one of
them is lost, does a member that is left depend on a receipt that nobody left holds? It prints "safe" where none does,
and else each such receipt, with the least set that loses it and the orphans that are left. It reads what `audit` reads.

Of a log it asks this at each moment, and K behind "at" is the place of the event that names the moment. A line "undone" is of
a receipt that the restart at K undid, while its orphans still depend on it at the end: the recovery gathered too little.

  echo '{"members":3,"f":1,"strike":[],"held":[[1,0,1,1,1],[2,1,1,2,1]],
   "events":[["send",0,1,1],["receipt",1,1,0,1],["send",1,1,2],["receipt",2,1,1,1]]}' | fblrun check"#;

/// What `draw` does.
const DRAW: &str = "Draws a dump, which is JSON, as SVG";

/// A first picture.
const DRAW_EXAMPLE: &str =
    r#"A dump is what `audit` reads. The picture has a line for each member, a mark for each event and an arrow for
each message; what a mark is stands in its tooltip. It shows what the first line of a check says: an unsafe receipt, of a log
at its moment, or one that a restart undid, at the end. Where there is no such line, or where the strike set of a dump leaves
an orphan, it shows what an audit finds. A log of more than 200 events with such a line is drawn around the line's K. A first
one, with a lost receipt and an orphan:

  echo '{"members":3,"f":1,"strike":[1],"held":[[1,0,1,1,1],[2,1,1,2,1]],
   "events":[["send",0,1,1],["receipt",1,1,0,1],["send",1,1,2],["receipt",2,1,1,1]]}' | fblrun draw -o dump.svg"#;

/// What the input of a play is.
const SCRIPT: &str = "The file with the script; where none is named, or -, it is standard input";

/// What the input of an audit is.
const DUMP: &str =
    "The file with the dump; several are merged first; where none is named, or -, it is standard input";

/// What `--around` does.
const AROUND: &str =
    "Draws the entry at K, as a check prints it, with the 30 entries before it and the 30 behind it";

/// What `--strict` does.
const STRICT: &str = "Ends with status 1 where a command was refused; the text is the same";

/// What `-o` does.
const OUTPUT: &str =
    "The file to write, which gets a whole text or stays as it was; where none is named, or -, it is standard output";

/// What `--explain` does where a script is played.
const EXPLAIN_PLAY: &str =
    "Tells on standard error what stands and what is wanted where the script has a fault, and each command with why it was refused";

/// What `--explain` does where a dump is audited.
const EXPLAIN_AUDIT: &str =
    "Tells on standard error what stands and what is wanted where the dump has a fault, and why each receipt is lost, with a path to each orphan";

/// What `--explain` does where a dump is checked.
const EXPLAIN_CHECK: &str =
    "Tells on standard error what stands and what is wanted where the dump has a fault, and of each unsafe or undone receipt who holds it, and a path to each orphan";

/// What `--explain` does where a dump is drawn, or several are merged.
const EXPLAIN_DRAW: &str =
    "Tells on standard error what stands and what is wanted where the dump has a fault";

/// The program's version.
const VERSION: &str = "1.0.0";

/// Why the words of a command line ask for nothing that can be done.
#[derive(Drop)]
pub(crate) enum Misuse {
    /// What the parser of command lines says of the words, or that it lacks memory. Help and the version are of these.
    Words(clap::Error),
    /// They name no command.
    NoCommand,
}

impl From<clap::Error> for Misuse {
    ghost use Rattle.fbl_program.specs.declared.command_line.Misuse.TheVariants.{Words};

    ghost from_gives = { λ error misuse. misuse ≡ Words error };

    fn from(error: clap::Error) -> Misuse {
        Misuse::Words(error)
    }
}

impl From<AllocError> for Misuse {
    ghost use Rattle.fbl_program.specs.CommandLines.{IsRefusedFor};

    ghost from_gives = { λ _ misuse. IsRefusedFor misuse };

    fn from(error: AllocError) -> Misuse {
        Misuse::Words(clap::Error::from(error))
    }
}

/// An option that has one value.
fn option<'a>(alloc: Global, name: &'a str, value: &'a str, help: &'a str) -> Arg<'a>
    ensures rule { rule_of result ≡ option_rule name.now }
    ensures local { result.global ≡ false }
{
    Arg::new(alloc, name)
        .long(name)
        .action(ArgAction::Set)
        .value_name(value)
        .help(help)
}

/// The numbers of workers that may make a run.
fn worker_numbers<'a>() -> ValueParser<'a>
    ensures { result ≡ Signed (pos 1) (pos 8) }
{
    clap::value_parser!(u8).range(1..=8)
}

/// The option `--workers`.
fn workers<'a>(alloc: Global) -> Arg<'a>
    ensures rule { rule_of result ≡ workers_rule }
    ensures local { result.global ≡ false }
{
    option(alloc, "workers", "N", "How many workers make a run, 1 to 8")
        .value_parser(worker_numbers())
        .default_value("2")
}

/// A flag, which is given or not.
fn flag<'a>(alloc: Global, name: &'a str, help: &'a str) -> Arg<'a>
    ensures rule { rule_of result ≡ flag_rule name.now }
    ensures local { result.global ≡ false }
{
    Arg::new(alloc, name)
        .long(name)
        .action(ArgAction::SetTrue)
        .help(help)
}

/// What is read: a file, or several, as the action takes them.
fn input<'a>(alloc: Global, action: ArgAction, help: &'a str) -> Arg<'a>
    ensures rule { rule_of result ≡ input_rule action }
    ensures local { result.global ≡ false }
{
    Arg::new(alloc, "input")
        .action(action)
        .value_name("FILE")
        .help(help)
}

/// The subcommand with what each has too: what is read, which is this, the file to write, and the flag `--explain`, which does this.
fn with_shared_args<'a>(
    alloc: Global,
    sub: Command<'a>,
    read: Arg<'a>,
    explained: &'a str,
) -> Result<Command<'a>, AllocError>
    requires globals { (fields_of sub).has_globals ≡ false }
    requires local { read.global ≡ false }
    ensures app { IfOk result (λ c. app_of c ≡ with_shared (rule_of read.entry) (app_of sub.entry)) }
    ensures no_globals { IfOk result (λ c. (fields_of c).has_globals ≡ false) }
{
    let sub = sub.arg(read)?;
    let sub = sub.arg(option(alloc, "output", "FILE", OUTPUT).short('o'))?;
    sub.arg(flag(alloc, "explain", explained))
}

/// A subcommand that plays a script, with its number of workers.
fn player<'a>(
    alloc: Global,
    name: &'a str,
    about: &'a str,
    example: &'a str,
) -> Result<Command<'a>, AllocError>
    ensures app { IfOk result (λ c. app_of c ≡ with_rule (new_app name.now) workers_rule) }
    ensures no_globals { IfOk result (λ c. (fields_of c).has_globals ≡ false) }
{
    let player = Command::new(alloc, name).about(about).after_help(example);
    player.arg(workers(alloc))
}

/// The subcommand `play`, which may be strict.
fn play<'a>(alloc: Global) -> Result<Command<'a>, AllocError>
    ensures app { IfOk result (λ c. app_of c ≡ play_app) }
    ensures no_globals { IfOk result (λ c. (fields_of c).has_globals ≡ false) }
{
    let play = player(alloc, "play", PLAY, PLAY_EXAMPLE)?;
    let play = play.arg(flag(alloc, "strict", STRICT))?;
    let script = input(alloc, ArgAction::Set, SCRIPT);
    with_shared_args(alloc, play, script, EXPLAIN_PLAY)
}

/// The program with a subcommand of this name that plays a script.
fn with_player<'a>(
    alloc: Global,
    command: Command<'a>,
    name: &'a str,
    about: &'a str,
    example: &'a str,
) -> Result<Command<'a>, AllocError>
    ensures { IfOk result (λ c. app_of c ≡ with_player name.now (app_of command.entry)) }
{
    let player = player(alloc, name, about, example)?;
    let script = input(alloc, ArgAction::Set, SCRIPT);
    command.subcommand(with_shared_args(alloc, player, script, EXPLAIN_PLAY)?)
}

/// The program with a subcommand of this name that reads dumps.
fn with_reader<'a>(
    alloc: Global,
    command: Command<'a>,
    name: &'a str,
    about: &'a str,
    example: &'a str,
    explained: &'a str,
) -> Result<Command<'a>, AllocError>
    ensures { IfOk result (λ c. app_of c ≡ with_reader name.now (app_of command.entry)) }
{
    let reader = Command::new(alloc, name).about(about).after_help(example);
    let dumps = input(alloc, ArgAction::Append, DUMP);
    command.subcommand(with_shared_args(alloc, reader, dumps, explained)?)
}

/// The subcommand `draw`, which may be around an entry.
fn draw<'a>(alloc: Global) -> Result<Command<'a>, AllocError>
    ensures app { IfOk result (λ c. app_of c ≡ draw_app) }
    ensures no_globals { IfOk result (λ c. (fields_of c).has_globals ≡ false) }
{
    let draw = Command::new(alloc, "draw")
        .about(DRAW)
        .after_help(DRAW_EXAMPLE);
    let draw = draw.arg(option(alloc, "around", "K", AROUND))?;
    let dumps = input(alloc, ArgAction::Append, DUMP);
    with_shared_args(alloc, draw, dumps, EXPLAIN_DRAW)
}

/// The program above its subcommands.
fn top<'a>(alloc: Global) -> Command<'a>
    ensures { app_of result ≡ top_app }
{
    Command::new(alloc, "fblrun")
        .version(VERSION)
        .about(PROGRAM)
        .after_help(STATUSES)
        .subcommand_required(true)
}

/// The program with the subcommands that play a script.
fn with_players<'a>(alloc: Global) -> Result<Command<'a>, AllocError>
    ensures { IfOk result (λ c. app_of c ≡ with_players) }
{
    let command = top(alloc).subcommand(play(alloc)?)?;
    let command = with_player(alloc, command, "show", SHOW, SHOW_EXAMPLE)?;
    with_player(alloc, command, "record", RECORD, RECORD_EXAMPLE)
}

/// What the program takes: `play`, with a number of workers, strict or not, `show` and `record`, with a number of workers, each with or
/// without a file to read, `merge`, `audit`, `check` or `draw`, with any number of them, the last one around an entry or not, each with or
/// without a file to write and `--explain`.
fn command_line<'a>(alloc: Global) -> Result<Command<'a>, AllocError>
    ensures { IfOk result (λ c. app_of c ≡ program) }
{
    let command = with_players(alloc)?;
    let command = with_reader(alloc, command, "merge", MERGE, MERGE_EXAMPLE, EXPLAIN_DRAW)?;
    let command = with_reader(alloc, command, "audit", AUDIT, AUDIT_EXAMPLE, EXPLAIN_AUDIT)?;
    let command = with_reader(alloc, command, "check", CHECK, CHECK_EXAMPLE, EXPLAIN_CHECK)?;
    command.subcommand(draw(alloc)?)
}

/// How many workers are asked for.
fn workers_in(found: &ArgMatches) -> u8
    ensures { AreWorkers (rows_of (found_of found.now)) result }
{
    found.get_one::<u8>("workers").unwrap_or(2)
}

/// Whether the flag of this name is given.
fn flag_in(found: &ArgMatches, name: &str) -> bool
    ensures { IsFlag name.now (rows_of (found_of found.now)) result }
{
    found.get_flag(name)
}

/// The word that is given for an argument of this name, if one is.
fn word_in<'a>(found: &ArgMatches<'a>, name: &str) -> Option<&'a str>
    ensures { option_map (λ s. s.now) result ≡ first_of name.now (rows_of (found_of found.now)) }
{
    found.get_str(name)
}

/// The names of the files that are given, in order.
fn files_in<'a>(
    alloc: Global,
    found: &ArgMatches<'a>,
    name: &str,
) -> Result<Vec<&'a str>, AllocError>
    ensures { IfOk result (λ v. AreNames v.items (texts_in name.now (rows_of (found_of found.now)))) }
{
    let mut files = Vec::new(alloc);
    files.extend_from_slice(found.get_raw(name).unwrap_or(&[]))?;
    Ok(files)
}

/// What the subcommand of this name does, if there is one.
fn task_at<'a>(name: &str, found: &ArgMatches<'a>) -> Option<Task<'a>>
    ensures { IsTaskAt name.now (rows_of (found_of found.now)) result }
{
    Some(match name {
        "play" => Task::Script(ScriptTask::Play {
            workers: workers_in(found),
            strict: flag_in(found, "strict"),
        }),
        "show" => Task::Script(ScriptTask::Show {
            workers: workers_in(found),
        }),
        "record" => Task::Script(ScriptTask::Record {
            workers: workers_in(found),
        }),
        "merge" => Task::Run(RunTask::Merge),
        "audit" => Task::Run(RunTask::Judge(Question::Audit)),
        "check" => Task::Run(RunTask::Judge(Question::Check)),
        "draw" => Task::Run(RunTask::Judge(Question::Draw(word_in(found, "around")))),
        _ => return None,
    })
}

/// What the subcommand of this name asks for, if there is one.
fn job_at<'a>(
    alloc: Global,
    name: &str,
    found: &ArgMatches<'a>,
) -> Result<Option<Job<'a>>, AllocError>
    ensures { IfOk result (IsJobAt name.now (rows_of (found_of found.now))) }
{
    let Some(task) = task_at(name, found) else {
        return Ok(None);
    };
    Ok(Some(Job {
        task,
        explain: flag_in(found, "explain"),
        inputs: files_in(alloc, found, "input")?,
        output: word_in(found, "output"),
    }))
}

/// What the words of the command line ask for, the program's name first.
pub(crate) fn job_of(alloc: Global, words: &[String]) -> Result<Job<'_>, Misuse>
    ensures given { IfOk result (IsJobOf (map string_bytes words.now)) }
    ensures refused { IfErr result (λ e. IsCommandLine (map string_bytes words.now) → IsRefusedFor e) }
    ensures misuse { IfErr result (IsMisuseOf (map string_bytes words.now)) }
{
    let command = command_line(alloc)?;
    let matches = command.try_get_matches_from(words)?;
    match matches.subcommand() {
        Some((name, found)) => match job_at(alloc, name, found)? {
            Some(job) => Ok(job),
            None => Err(Misuse::NoCommand),
        },
        None => Err(Misuse::NoCommand),
    }
}
