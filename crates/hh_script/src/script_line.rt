//! The lines of a script. There are several kinds.

ghost use Rattle.std.specs.Prelude.{◌≡◌, option_map};
ghost use Rattle.hh_script.specs.Steps.{step_of, step_value};

use crate::load::LoadLine;
use crate::report::ReportLine;
use crate::run::RunLine;
use crate::serve::ServeLine;
use crate::words::split_word;

/// What a line of a script asks for.
#[derive(Clone, Copy, Debug, PartialEq, Eq)]
pub enum ScriptLine<'a> {
    /// That a file be loaded.
    Load(LoadLine<'a>),
    /// That a run be made.
    Run(RunLine<'a>),
    /// That a report be written.
    Report(ReportLine<'a>),
    /// That connections be served.
    Serve(ServeLine),
}

impl<'a> ScriptLine<'a> {
    /// What a line asks for, if it has a form. Its first word decides which.
    #[tactic(auto, unfolding(crate::specs::Steps::step_value))]
    pub(crate) fn read(line: &'a [u8]) -> Option<ScriptLine<'a>>
        ensures { option_map step_of result ≡ step_value line.entry.now }
    {
        let (command, words) = split_word(line)?;
        if command == b"load".as_slice() {
            return match LoadLine::read(words) {
                Some(line) => Some(ScriptLine::Load(line)),
                None => None,
            };
        }
        if command == b"run".as_slice() {
            return match RunLine::read(words) {
                Some(line) => Some(ScriptLine::Run(line)),
                None => None,
            };
        }
        if command == b"report".as_slice() {
            return match ReportLine::read(words) {
                Some(line) => Some(ScriptLine::Report(line)),
                None => None,
            };
        }
        if command == b"serve".as_slice() {
            return Some(ScriptLine::Serve(ServeLine::read(words)?));
        }
        None
    }
}
