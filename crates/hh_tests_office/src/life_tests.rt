//! Tests of what no clause says: with ample memory an office is made in files in memory, and commands over
//! them are answered, however the process of each ends.

use crate::disks::new_disks;
use crate::requests::{LOADED_AT, PARTIES, load, settings};
use hh_file_life::{Ending, FileCommand, LifeStop, make_office, run_all};
use hh_names::Refusal;
use hh_requests::Reply;
use hh_rows::{FileKind, Settings};
use hh_time::london;
use std::alloc::Global;
use std::test::Fail;

/// A file of parties with fewer of them.
const FEWER: &str = "party,from,to,key\nGENCO,2024-01-01,,genco0001\n";

/// A command that loads a file of parties. All such files have the same name.
fn command(alloc: Global, text: &str, ending: Ending) -> Result<FileCommand, Fail> {
    Ok(FileCommand {
        moment: LOADED_AT,
        request: load(alloc, FileKind::Parties, text.to_string(alloc)?).ok_or("load")?,
        ending,
    })
}

/// The first file is loaded, then another is sent under its name, and then the first again.
fn commands(alloc: Global) -> Result<Vec<FileCommand>, Fail> {
    let mut commands = Vec::new(alloc);
    commands.push(command(alloc, PARTIES, Ending::Left)?)?;
    commands.push(command(alloc, FEWER, Ending::Crashed)?)?;
    commands.push(command(alloc, PARTIES, Ending::Closed)?)?;
    Ok(commands)
}

/// What a reply says, as a letter: a file is loaded, or its name is taken.
fn letter_of(reply: &Reply) -> u8 {
    match reply {
        Reply::Loaded(loaded) if loaded.applied == 2 => b'l',
        Reply::Refused(fault) if fault.refusal == Refusal::FileChanged => b't',
        _ => b'?',
    }
}

/// Whether these replies say what these letters mean.
fn say(replies: &[Reply], letters: &[u8]) -> bool {
    replies.len() == letters.len()
        && replies
            .iter()
            .zip(letters)
            .all(|pair| letter_of(pair.0) == *pair.1)
}

/// The replies to commands over files in memory in which an office was made.
fn replies_to(
    alloc: Global,
    settings: Settings,
    commands: &[FileCommand],
) -> Result<Vec<Reply>, LifeStop> {
    let files = make_office(alloc, new_disks(alloc), settings, Ending::Crashed)?;
    let (replies, _files) = run_all(alloc, files, &london(), commands)?;
    Ok(replies)
}

#[test]
fn commands_are_answered_over_files(rt: HostRuntime) -> Result<(), Fail> {
    let settings = settings().ok_or("settings")?;
    let commands = commands(rt.alloc())?;
    let replies = replies_to(rt.alloc(), settings, &commands)
        .ok()
        .ok_or("replies")?;
    assert!(rt; say(&replies, b"ltl"));
    Ok(())
}
