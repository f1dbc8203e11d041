//! The grammar of the command line, as `clap` reads it, and the texts of its help.

ghost use Rattle.std.specs.Prelude.{◌≡◌, IfOk, false, map};
ghost use Rattle.clap.specs.Words.{app_of, rule_of};
ghost use Rattle.clap.specs.declared.builder.command.Command.TheViews.{out-Command};
ghost use Rattle.hh_words.specs.Grammar.{program, settle_app};
ghost use Rattle.hh_words.specs.steps.Subcommands.{subcommand_app, word_rule};

use crate::values::Value;
use clap::{Arg, ArgAction, Command as Grammar};
use std::alloc::{AllocError, Global};

/// How a value is given.
#[derive(Clone, Copy)]
pub(crate) enum Form {
    /// At its place.
    Placed,
    /// At its place, and may be left out.
    PlacedIfAny,
    /// After its name.
    Named,
    /// After its name, and may be left out.
    NamedIfAny,
}

/// A word of a command: how its value is given, its name, what it is, and the grammar of its value.
#[derive(Clone, Copy)]
pub(crate) struct Word<'a> {
    pub(crate) form: Form,
    pub(crate) name: &'a str,
    /// One line that is told in help, and about a value that is off its grammar.
    pub(crate) help: &'a str,
    pub(crate) value: Value,
}

/// A subcommand: its name, what it does, its words, and what help tells about the options that are removed
/// before `clap` reads the words.
#[derive(Clone, Copy)]
pub(crate) struct Subcommand<'a> {
    pub(crate) name: &'a str,
    pub(crate) about: &'a str,
    pub(crate) words: &'a [Word<'a>],
    pub(crate) options: &'a str,
}

const DB: Word<'static> = Word {
    form: Form::Named,
    name: "db",
    help: "Path of the database file",
    value: Value::Any,
};

const OPERATOR_KEY: Word<'static> = Word {
    form: Form::Named,
    name: "operator-key",
    help: "Key of the operator: op- and 8 to 61 letters or digits",
    value: Value::OperatorKey,
};

const LEAD_MINUTES: Word<'static> = Word {
    form: Form::NamedIfAny,
    name: "lead-minutes",
    help: "Minutes from deadline to period, 0 to 1440; 60 if none given",
    value: Value::LeadMinutes,
};

const KEY: Word<'static> = Word {
    form: Form::Named,
    name: "key",
    help: "Key that is shown: the operator's, or a party's of 8 to 64 letters or digits",
    value: Value::ShownKey,
};

const AT: Word<'static> = Word {
    form: Form::NamedIfAny,
    name: "at",
    help: "Moment, whole seconds since 1970-01-01T00:00:00Z (--at=-N); else the clock's",
    value: Value::Moment,
};

const RUN_KIND: Word<'static> = Word {
    form: Form::Placed,
    name: "KIND",
    help: "Kind of the run: SF, R1, R2, R3, RF or DF",
    value: Value::RunKind,
};

/// What help tells about the options of each command.
const OPTIONS: &str = "\
More options:
      --explain  Explains a refusal or a fault on one line more";

/// What help tells about the options of the commands that are shown a key.
const KEY_OPTIONS: &str = "\
More options:
      --key-file <PATH>  File of which the first line is the key, in the place of --key
      --explain          Explains a refusal or a fault on one line more";

const PERIOD: Subcommand<'static> = Subcommand {
    name: "period",
    about: "Settles one period from two files and a price",
    words: &[
        Word {
            form: Form::Placed,
            name: "METER",
            help: "File of the units' meter rows",
            value: Value::Any,
        },
        Word {
            form: Form::Placed,
            name: "CONTRACTS",
            help: "File of the contract rows",
            value: Value::Any,
        },
        Word {
            form: Form::Placed,
            name: "PRICE",
            help: "Price in pounds per MWh; a negative one follows the word --",
            value: Value::Any,
        },
    ],
    options: OPTIONS,
};

const SCRIPT: Subcommand<'static> = Subcommand {
    name: "script",
    about: "Runs the lines of a script over a new office in memory, or over that of a database file",
    words: &[
        Word {
            form: Form::NamedIfAny,
            help: "Path of a database file; without it --operator-key is needed",
            ..DB
        },
        Word {
            form: Form::NamedIfAny,
            ..OPERATOR_KEY
        },
        LEAD_MINUTES,
        Word {
            form: Form::Placed,
            name: "FILE",
            help: "File of the script, one command a line",
            value: Value::Any,
        },
    ],
    options: "\
More options:
      --operator-key-file <PATH>  File with the key as its first line, for --operator-key
      --strict                    Stops at the first refusal or fault, with status 1
      --explain                   Explains refusals, faults and late rows on one line more each",
};

const INIT: Subcommand<'static> = Subcommand {
    name: "init",
    about: "Makes a database file with a new office in it",
    words: &[DB, OPERATOR_KEY, LEAD_MINUTES],
    options: "\
More options:
      --operator-key-file <PATH>  File with the key as its first line, for --operator-key
      --explain                   Explains a refusal or a fault on one line more",
};

const MIGRATE: Subcommand<'static> = Subcommand {
    name: "migrate",
    about: "Takes the office of a database file from an earlier version to the present one",
    words: &[DB],
    options: OPTIONS,
};

const LOAD: Subcommand<'static> = Subcommand {
    name: "load",
    about: "Loads a file of rows into the office of a database file",
    words: &[
        DB,
        KEY,
        AT,
        Word {
            form: Form::Placed,
            name: "KIND",
            help: "What the rows are: parties, units, meters, prices, contracts or reallocations",
            value: Value::FileKind,
        },
        Word {
            form: Form::Placed,
            name: "FILE",
            help: "File of the rows; its name behind the last / has 1 to 64 letters, digits, . _ -",
            value: Value::NamedPath,
        },
    ],
    options: KEY_OPTIONS,
};

const RUN: Subcommand<'static> = Subcommand {
    name: "run",
    about: "Makes a settlement run over the office of a database file",
    words: &[
        DB,
        KEY,
        AT,
        Word {
            form: Form::Placed,
            name: "DATE",
            help: "Date of the calendar that the run settles, 2001-01-01 to 2099-12-31",
            value: Value::Date,
        },
        RUN_KIND,
    ],
    options: KEY_OPTIONS,
};

const REPORT: Subcommand<'static> = Subcommand {
    name: "report",
    about: "Writes a report of the office of a database file",
    words: &[
        DB,
        KEY,
        Word {
            form: Form::Placed,
            name: "FORM",
            help: "Form of the report: day or csv of a run, or balances",
            value: Value::ReportForm,
        },
        Word {
            form: Form::PlacedIfAny,
            name: "DATE",
            help: "Date of the run, 2001-01-01 to 2099-12-31; none for balances",
            value: Value::Date,
        },
        Word {
            form: Form::PlacedIfAny,
            help: "Kind of the run: SF, R1, R2, R3, RF or DF; none for balances",
            ..RUN_KIND
        },
    ],
    options: KEY_OPTIONS,
};

const SERVE: Subcommand<'static> = Subcommand {
    name: "serve",
    about: "Serves connections to 127.0.0.1 over the office of a database file, one after the other",
    words: &[
        DB,
        Word {
            form: Form::Named,
            name: "port",
            help: "Port, 0 to 65535; with 0 the machine chooses a free one",
            value: Value::Port,
        },
        Word {
            form: Form::NamedIfAny,
            name: "count",
            help: "How many connections are served, 0 to 1000000; 1000000 where none is given",
            value: Value::Count,
        },
        AT,
    ],
    options: OPTIONS,
};

/// The subcommands of the program.
pub(crate) const SUBCOMMANDS: [Subcommand<'static>; 8] = [
    PERIOD, SCRIPT, INIT, MIGRATE, LOAD, RUN, REPORT, SERVE,
];

/// What help tells about the options of the program.
const PROGRAM_OPTIONS: &str = "\
More options:
      --version  Prints the version
      --explain  With any command: explains a refusal or a fault on one line more";

/// The grammar of the program, which needs a subcommand.
#[tactic(auto, unfolding(crate::specs::Grammar::settle_app))]
pub(crate) fn settle_grammar<'a>(alloc: Global) -> Result<Grammar<'a>, AllocError>
    ensures app { IfOk result (λ c. app_of c ≡ settle_app) }
    ensures own { IfOk result (λ c. (out-Command c).has_globals ≡ false) }
{
    program_grammar(alloc, &SUBCOMMANDS)
}

/// The grammar of a program that needs one of these subcommands.
fn program_grammar<'a>(
    alloc: Global,
    subcommands: &[Subcommand<'a>],
) -> Result<Grammar<'a>, AllocError>
    ensures app { IfOk result (λ c. app_of c ≡ program (map subcommand_app subcommands.now)) }
    ensures own { IfOk result (λ c. (out-Command c).has_globals ≡ false) }
{
    let mut settle = Grammar::new(alloc, "settle")
        .about("Settles the imbalances of half-hourly energy accounts")
        .after_help(PROGRAM_OPTIONS)
        .subcommand_required(true);
    for subcommand in subcommands {
        settle = settle.subcommand(subcommand_grammar(alloc, *subcommand)?)?;
    }
    Ok(settle)
}

/// The grammar of a subcommand.
fn subcommand_grammar<'a>(
    alloc: Global,
    subcommand: Subcommand<'a>,
) -> Result<Grammar<'a>, AllocError>
    ensures app { IfOk result (λ c. app_of c ≡ subcommand_app subcommand.entry) }
    ensures own { IfOk result (λ c. (out-Command c).has_globals ≡ false) }
{
    let mut grammar = Grammar::new(alloc, subcommand.name)
        .about(subcommand.about)
        .after_help(subcommand.options);
    for word in subcommand.words {
        grammar = grammar.arg(arg_of(alloc, *word))?;
    }
    Ok(grammar)
}

/// A word as an argument of `clap`.
fn arg_of<'a>(alloc: Global, word: Word<'a>) -> Arg<'a>
    ensures rule { rule_of result ≡ word_rule word.entry }
    ensures own { result.global ≡ false }
{
    let arg = Arg::new(alloc, word.name)
        .action(ArgAction::Set)
        .help(word.help);
    match word.form {
        Form::Placed => arg.required(true),
        Form::PlacedIfAny => arg,
        Form::Named => arg.long(word.name).required(true),
        Form::NamedIfAny => arg.long(word.name),
    }
}
