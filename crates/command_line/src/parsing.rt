//! The command line.
ghost use Rattle.std.specs.Prelude.{◌≡◌, [], true, false, IfOk, IfErr, map};
ghost use Rattle.clap.specs.Takes.{takes};
ghost use Rattle.clap.specs.Values.{kind_of};
ghost use Rattle.clap.specs.Words.{App, HasMatchesOf, rule_of, with_subcommand};
ghost use Rattle.clap.specs.declared.error.kind.ErrorKind.TheVariants.{OutOfMemory};
ghost use Rattle.clap.specs.declared.parser.matches.ArgMatches.{ArgMatches};
ghost use Rattle.command_line.specs.Words.{NamesAction, IsCommand, IsFaultOf, IsSubcommand, IsUsageFault, faults_in, flag, kyoto_link, option, positional, program, with_auditors, words_rule};
ghost use Rattle.command_line.specs.Subcommands.{described, rule_in};

use crate::actions::{Action, action_of};
use crate::notes::{
    AUDIT_NOTES, CHART_NOTES, EVENTS_NOTES, EXPLAIN_NOTES, NODE_NOTES, NOTES, REHEARSE_NOTES,
    RUN_NOTES, SHOW_NOTES, TRACE_NOTES,
};
use clap::error::ErrorKind;
use clap::{Arg, ArgAction, Command, Error};
use std::alloc::{AllocError, Global};
use std::convert::AsStr;

/// The version that `--version` writes after the program's name.
const VERSION: &str = "0.1.0";

/// Why the words name no action. The texts are those of `clap`.
#[derive(Drop)]
pub enum UsageFault {
    /// The words are wrong.
    Usage(Error),
    /// The words ask for help or for the version.
    Help(Error),
    /// Out of memory.
    NoMemory,
}

/// How an argument is given.
#[derive(Clone, Copy)]
enum ArgumentKind {
    /// As a word, which must be given.
    Positional,
    /// As a flag, `--` before its name, or not at all.
    Flag,
    /// As an option, `--` before its name and a value after it, once.
    Required { value: &'static str },
    /// As an option, once or more.
    Repeated { value: &'static str },
    /// As an option, once or not at all.
    Optional { value: &'static str },
    /// As words, any number of them. From the first on, what begins with `-` is such a word too.
    Words,
}

/// An argument of a subcommand.
struct Argument {
    name: &'static str,
    help: &'static str,
    kind: ArgumentKind,
}

/// A subcommand, with the end of its help.
struct Subcommand {
    name: &'static str,
    about: &'static str,
    notes: &'static str,
    arguments: &'static [Argument],
}

const SCHEME: Argument = Argument {
    name: "SCHEME",
    help: "The file with the scheme",
    kind: ArgumentKind::Positional,
};

const DIR: Argument = Argument {
    name: "DIR",
    help: "The folder with the nodes' stores",
    kind: ArgumentKind::Positional,
};

const NODE: Argument = Argument {
    name: "NODE",
    help: "The node: ITL, or the code of a registry of the scheme",
    kind: ArgumentKind::Positional,
};

const SCRIPT: Argument = Argument {
    name: "SCRIPT",
    help: "The file with a line for each order and each question",
    kind: ArgumentKind::Positional,
};

const ID: Argument = Argument {
    name: "ID",
    help: "The transaction: its initiator's code and its number, as NZ1",
    kind: ArgumentKind::Positional,
};

const WORDS: Argument = Argument {
    name: "WORDS",
    help: "A code, a status, an outcome, a word of a fault line, or a whole line; without it, all topics are listed",
    kind: ArgumentKind::Words,
};

const CUT: Argument = Argument {
    name: "cut",
    help: "Write the table of the run with the most records, and which records are left",
    kind: ArgumentKind::Flag,
};

const JSON: Argument = Argument {
    name: "json",
    help: "Write a JSON object per line",
    kind: ArgumentKind::Flag,
};

const EXISTING: Argument = Argument {
    name: "existing",
    help: "Fail if a store is missing, and change no file",
    kind: ArgumentKind::Flag,
};

const EXISTING_OF_RUN: Argument = Argument {
    name: "existing",
    help: "Fail if a store is missing",
    kind: ArgumentKind::Flag,
};

const STRICT: Argument = Argument {
    name: "strict",
    help: "Fail if a line was refused, or if a status that a line waits for didn't come",
    kind: ArgumentKind::Flag,
};

const LISTEN: Argument = Argument {
    name: "listen",
    help: "The address at which the node takes messages, as 127.0.0.1:7001",
    kind: ArgumentKind::Required { value: "ADDRESS" },
};

const PEER: Argument = Argument {
    name: "peer",
    help: "A peer, and the address at which it takes messages, as ITL=127.0.0.1:7000",
    kind: ArgumentKind::Repeated {
        value: "NODE=ADDRESS",
    },
};

const KEYS: Argument = Argument {
    name: "keys",
    help: "The file with the key of the link to each peer; without it, messages have no tags",
    kind: ArgumentKind::Optional { value: "FILE" },
};

const CLEAN_UP: Argument = Argument {
    name: "clean-up",
    help: "The seconds between two clean-ups; without it, only the operator orders them",
    kind: ArgumentKind::Optional { value: "SECONDS" },
};

/// The subcommands that only read events or stores. They come first in the program's help.
const READERS: &[Subcommand] = &[
    Subcommand {
        name: "rehearse",
        about: "Run a scheme and its events, read from standard input, and write the outcome of each event and the table after the last one",
        notes: REHEARSE_NOTES,
        arguments: &[],
    },
    Subcommand {
        name: "chart",
        about: "Run a scheme and its events, read from standard input, and draw them as a Mermaid sequence diagram",
        notes: CHART_NOTES,
        arguments: &[],
    },
    Subcommand {
        name: "show",
        about: "Write the records of a node's store, each with its place",
        notes: SHOW_NOTES,
        arguments: &[SCHEME, DIR, NODE, JSON, EXISTING],
    },
    Subcommand {
        name: "audit",
        about: "Find a run that leads to the records of all stores, and write its table",
        notes: AUDIT_NOTES,
        arguments: &[SCHEME, DIR, CUT, JSON, EXISTING],
    },
    Subcommand {
        name: "events",
        about: "Find a run that leads to the records of all stores, and write its scheme and its events as rehearse reads them",
        notes: EVENTS_NOTES,
        arguments: &[SCHEME, DIR, JSON, EXISTING],
    },
    Subcommand {
        name: "trace",
        about: "Write the records of one transaction, in the order of a run that leads to the records of all stores",
        notes: TRACE_NOTES,
        arguments: &[SCHEME, DIR, ID, JSON, EXISTING],
    },
];

/// The other subcommands, in the order of the program's help. The prover looks at a whole table at once, and there is a
/// limit to it.
const OTHERS: &[Subcommand] = &[
    Subcommand {
        name: "explain",
        about: "Write the meaning of a code, a status, an outcome or a fault, or list what has one",
        notes: EXPLAIN_NOTES,
        arguments: &[WORDS],
    },
    Subcommand {
        name: "run",
        about: "Run all nodes with threads, sockets and stores, carry out the lines of a script, and write the outcome of each line and the table after the last one",
        notes: RUN_NOTES,
        arguments: &[SCHEME, DIR, SCRIPT, EXISTING_OF_RUN, STRICT],
    },
    Subcommand {
        name: "node",
        about: "Run one node of a scheme on its own, carry out the lines of its operator, read from standard input, and write the outcome of each",
        notes: NODE_NOTES,
        arguments: &[SCHEME, DIR, NODE, LISTEN, PEER, KEYS, CLEAN_UP],
    },
];

fn positional<'a>(alloc: Global, name: &'a str, help: &'a str) -> Arg<'a>
    ensures rule { rule_of result ≡ positional name.now }
    ensures global { result.global ≡ false }
{
    Arg::new(alloc, name).required(true).help(help)
}

fn flag<'a>(alloc: Global, name: &'a str, help: &'a str) -> Arg<'a>
    ensures rule { rule_of result ≡ flag name.now }
    ensures global { result.global ≡ false }
{
    Arg::new(alloc, name)
        .long(name)
        .action(ArgAction::SetTrue)
        .help(help)
}

/// An option with a value. `value` is the value's name in the help.
fn option<'a>(
    alloc: Global,
    name: &'a str,
    value: &'a str,
    help: &'a str,
    action: ArgAction,
    required: bool,
) -> Arg<'a>
    ensures rule { rule_of result ≡ option name.now action required }
    ensures global { result.global ≡ false }
{
    Arg::new(alloc, name)
        .long(name)
        .value_name(value)
        .action(action)
        .required(required)
        .help(help)
}

/// Any number of words.
fn words<'a>(alloc: Global, name: &'a str, help: &'a str) -> Arg<'a>
    ensures rule { rule_of result ≡ words_rule name.now }
    ensures global { result.global ≡ false }
{
    Arg::new(alloc, name)
        .action(ArgAction::Append)
        .num_args(..)
        .trailing_var_arg(true)
        .help(help)
}

impl Argument {
    fn arg<'a>(&self, alloc: Global) -> Arg<'a>
        ensures rule { rule_of result ≡ rule_in self.now }
        ensures global { result.global ≡ false }
    {
        let (name, help) = (self.name, self.help);
        match self.kind {
            ArgumentKind::Positional => positional(alloc, name, help),
            ArgumentKind::Flag => flag(alloc, name, help),
            ArgumentKind::Required { value } => {
                option(alloc, name, value, help, ArgAction::Set, true)
            }
            ArgumentKind::Repeated { value } => {
                option(alloc, name, value, help, ArgAction::Append, true)
            }
            ArgumentKind::Optional { value } => {
                option(alloc, name, value, help, ArgAction::Set, false)
            }
            ArgumentKind::Words => words(alloc, name, help),
        }
    }
}

impl Subcommand {
    fn command<'a>(&self, alloc: Global) -> Result<Command<'a>, AllocError>
        ensures { IfOk result (IsSubcommand (described self.now)) }
    {
        let mut command = Command::new(alloc, self.name)
            .about(self.about)
            .after_help(self.notes);
        for argument in self.arguments {
            command = command.arg(argument.arg(alloc))?;
        }
        Ok(command)
    }

    /// The program with this subcommand too.
    fn added_to<'a>(&self, alloc: Global, program: Command<'a>) -> Result<Command<'a>, AllocError>
        ensures { (a : App) → IsCommand a program.entry
            → IfOk result (IsCommand (with_subcommand a (described self.now))) }
    {
        let command = self.command(alloc)?;
        program.subcommand(command)
    }
}

/// The program without its subcommands.
fn bare_command<'a>(alloc: Global) -> Command<'a>
    ensures { IsCommand program result }
{
    Command::new(alloc, "kyoto-link")
        .about(
            "The external transfer of emission units between national registries and their transaction log",
        )
        .version(VERSION)
        .after_help(NOTES)
        .subcommand_required(true)
}

/// The program with the subcommands that only read.
fn readers<'a>(alloc: Global) -> Result<Command<'a>, AllocError>
    ensures { IfOk result (IsCommand with_auditors) }
{
    let mut program = bare_command(alloc);
    for subcommand in READERS {
        program = subcommand.added_to(alloc, program)?;
    }
    Ok(program)
}

/// The program, with all its subcommands.
fn command<'a>(alloc: Global) -> Result<Command<'a>, AllocError>
    ensures { IfOk result (IsCommand kyoto_link) }
{
    let mut program = readers(alloc)?;
    for subcommand in OTHERS {
        program = subcommand.added_to(alloc, program)?;
    }
    Ok(program)
}

/// The program's fault for an error of `clap`.
fn fault_of(error: Error) -> UsageFault
    ensures memory { kind_of error ≡ OutOfMemory → result ≡ UsageFault.NoMemory }
    ensures kind { IsFaultOf error result }
{
    match error.kind() {
        ErrorKind::OutOfMemory => UsageFault::NoMemory,
        ErrorKind::DisplayHelp | ErrorKind::DisplayVersion => UsageFault::Help(error),
        _ => UsageFault::Usage(error),
    }
}

/// The action that the words name. The first word is the program's own name.
///
/// Fails with `Help` where the words ask for help or for the version, with `Usage` where they are wrong, and with
/// `NoMemory`. Where `clap` accepts the words, `NoMemory` is the only fault.
pub fn parse_words<S: AsStr>(alloc: Global, words: &[S]) -> Result<Action, UsageFault>
    ensures ok { IfOk result (λ a. (m : ArgMatches) × HasMatchesOf kyoto_link (map S.text words.now) m
        × NamesAction m a) }
    ensures right { IfOk result (λ a. faults_in (map S.text words.now) ≡ []) }
    ensures fault { IfErr result (IsUsageFault (map S.text words.now)) }
    ensures taken { takes kyoto_link (map S.text words.now) ≡ true → IfErr result (λ f. f ≡ UsageFault.NoMemory) }
{
    let Ok(command) = command(alloc) else {
        return Err(UsageFault::NoMemory);
    };
    match command.try_get_matches_from(words) {
        Ok(matches) => match action_of(alloc, &matches) {
            Some(action) => Ok(action),
            None => Err(UsageFault::NoMemory),
        },
        Err(error) => Err(fault_of(error)),
    }
}
