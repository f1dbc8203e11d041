//! The commands, by their words.

use crate::answers::{Kind, answer_inputs, write_log};
use crate::calls::calls_of;
use crate::measures::{load_files, read_again, settle_again};
use crate::office::run_office;
use crate::stop::TrialStop;
use crate::stores::{InFile, InMemory};
use crate::sweep::{Plan, sweep_all};
use crate::ways::{ON, ONCE, Way};
use hh_names::OperatorKey;
use hh_rows::{FileKind, LeadMinutes, Settings};

/// What the rows of a file are that the words name, and its path.
pub(crate) type NamedFile<'a> = (FileKind, &'a str);

/// Does what a line of words asks for, which begins with the program's own name.
pub(crate) fn run_words(rt: &HostRuntime, words: &[String]) -> Result<(), TrialStop> {
    let [_, command, given @ ..] = words else {
        return Err(TrialStop::Words);
    };
    match (command.as_str(), given) {
        ("settle", [times]) => settle_again(rt, number_of(times)?),
        ("read", [file @ .., times]) => read_again(rt, file_of(file)?, number_of(times)?),
        ("load", [_, ..]) => load_by(rt, given),
        ("office", [database, script, manner @ ..]) => {
            office_by(rt, database.as_str(), script.as_str(), manner)
        }
        ("answer", _) => answer_inputs(rt, &kind_of(rt, given)?),
        ("log", [database, calls @ ..]) => write_log(rt, database.as_str(), &calls_of(rt, calls)?),
        ("refuse", [way, how, store, calls @ ..]) => {
            let (way, how) = manner_of(way.as_str(), how.as_str())?;
            let calls = calls_of(rt, calls)?;
            refuse_by(rt, store.as_str(), &Plan { way, how, calls })
        }
        _ => Err(TrialStop::Words),
    }
}

fn load_by(rt: &HostRuntime, words: &[String]) -> Result<(), TrialStop> {
    let mut files = Vec::new(rt.alloc());
    for pair in words.chunks(2) {
        files.push(file_of(pair)?)?;
    }
    load_files(rt, &files)
}

fn office_by(
    rt: &HostRuntime,
    database: &str,
    script: &str,
    words: &[String],
) -> Result<(), TrialStop> {
    let (is_small, made) = match words {
        [word, made @ ..] if word.as_str() == "small" => (true, made),
        made => (false, made),
    };
    let made = match made {
        [] => None,
        [key, minutes] => Some(Settings {
            lead_minutes: LeadMinutes::read(minutes.as_bytes()).ok_or(TrialStop::Words)?,
            operator_key: OperatorKey::read(key.as_bytes()).ok_or(TrialStop::Words)?,
        }),
        _ => return Err(TrialStop::Words),
    };
    run_office(rt, database, script, is_small, made)
}

/// By which call requests are tried, and the folder of paths that tell the library what to refuse.
fn manner_of(way: &str, how: &str) -> Result<(Way, &'static str), TrialStop> {
    let way = match way {
        "handle" => Way::Handle,
        "serve" => Way::Serve,
        "together" => Way::Together,
        _ => return Err(TrialStop::Words),
    };
    match how {
        "once" => Ok((way, ONCE)),
        "on" => Ok((way, ON)),
        _ => Err(TrialStop::Words),
    }
}

fn refuse_by(rt: &HostRuntime, store: &str, plan: &Plan) -> Result<(), TrialStop> {
    match store {
        "memory" => sweep_all(rt, &InMemory, plan),
        path => sweep_all(rt, &InFile { path }, plan),
    }
}

/// What inputs are read as.
fn kind_of(rt: &HostRuntime, words: &[String]) -> Result<Kind, TrialStop> {
    let [kind, calls @ ..] = words else {
        return Err(TrialStop::Words);
    };
    match (kind.as_str(), calls) {
        ("request", []) => Ok(Kind::Request),
        ("script", []) => Ok(Kind::Script),
        ("database", [_, ..]) => Ok(Kind::Database(calls_of(rt, calls)?)),
        (word, []) => Ok(Kind::File(file_kind_of(word)?)),
        _ => Err(TrialStop::Words),
    }
}

fn file_of(words: &[String]) -> Result<NamedFile<'_>, TrialStop> {
    match words {
        [kind, path] => Ok((file_kind_of(kind.as_str())?, path.as_str())),
        _ => Err(TrialStop::Words),
    }
}

fn file_kind_of(word: &str) -> Result<FileKind, TrialStop> {
    FileKind::read(word.as_bytes()).ok_or(TrialStop::Words)
}

fn number_of(word: &String) -> Result<u32, TrialStop> {
    word.parse().ok().ok_or(TrialStop::Words)
}
