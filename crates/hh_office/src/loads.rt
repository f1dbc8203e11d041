//! Files that are sent.

ghost use Rattle.std.specs.Prelude.{◌≡◌, ◌≤◌, length, None, IfOk, OnErr, OnOk};
ghost use Rattle.hh_rules.specs.RegisterView.{ServesFor};
ghost use Rattle.hh_rows.specs.RowKinds.{most_rows};
ghost use Rattle.hh_states.specs.Reads.{file_in, whole_register};
ghost use Rattle.hh_store.specs.Crashes.{AddsNothing, AddsOnly};
ghost use Rattle.hh_store.specs.Reached.{AreReached};
ghost use Rattle.hh_store.specs.StoreFaults.{CountsRefusal};
ghost use Rattle.hh_office.specs.Crashes.{IfReplied, MadeInEachState};
ghost use Rattle.hh_office.specs.steps.Crashes.{IsAcceptedContent, IfTold, IsLoadedContent};
ghost use Rattle.hh_office.specs.steps.Loads.{Accepts, NamesItsFile, Judges, WritesLoad, writes_of};
ghost use Rattle.hh_office.specs.Refusals.{CountsReply, RepresentsSome};
ghost use Rattle.hh_office.specs.steps.Refusals.{CountsAnswer};
ghost use Rattle.hh_office.specs.Machine.{load, load_new, loaded_reply, repeat_reply};
ghost use Rattle.hh_office.specs.Promises.{RefusalLeaves};
ghost use Rattle.hh_office.specs.steps.Promises.{FollowsMachine, reply_of};
ghost use Rattle.hh_office.specs.Views.{IsSure};

use crate::office::Office;
use hh_day::{kept_files, load_effect};
use hh_names::{Fault, Refusal};
use hh_requests::{Action, Loaded, Reply, Request, Upload};
use hh_rows::Row;
use hh_rules::{FileRows, Register};
use hh_store::{KeptFile, LoadChange, StoreFault, Tables};
use hh_texts::{MOST_BYTES, read_file};
use std::alloc::AllocError;

impl<'z, T: Tables> Office<'z, T> {
    /// What becomes of a file that is sent.
    pub(crate) fn load(&mut self, moment: i64, upload: &Upload) -> Result<Reply, Fault>
        ensures makes { IsSure T.is_open self.new
            → FollowsMachine self.old.seen self.new.seen result (λ midnight s.
            load midnight s moment upload.now) }
        ensures untouched { IsSure T.is_open self.new
            → RefusalLeaves self.old.seen self.new.seen (reply_of result) }
        ensures sure { IsSure T.is_open self.new → IsSure T.is_open self.old }
        ensures crash { AddsOnly T.is_honest T.is_open T.may_leave T.holds
            self.old.tables self.new.tables (IfReplied (reply_of result))
            (MadeInEachState self.old.seen (λ midnight s. load midnight s moment upload.now)) }
        ensures refusals_counted { IsSure T.is_open self.new → RepresentsSome self.old.seen
            → CountsReply (reply_of result)
            (T.refusals self.old.tables) (T.refusals self.new.tables) }
    {
        if upload.body.as_slice().len() > MOST_BYTES {
            return Err(Fault::of(Refusal::FileTooLarge));
        }
        // Does nothing, but carries a law for the proof: the tables hold the files that were accepted.
        kept_files();
        match self.kept_under(upload)? {
            Some(file) => Ok(repeated(&file, upload)),
            None => self.load_new(moment, upload),
        }
    }

    /// What is kept under the kind and name of a file.
    fn kept_under(&mut self, upload: &Upload) -> Result<Option<KeptFile>, StoreFault>
        ensures value { IsSure T.is_open self.new → IfOk result (λ found.
            found ≡ file_in self.old.seen.content upload.now.kind upload.now.name) }
        ensures same { IsSure T.is_open self.new → self.new.seen ≡ self.old.seen }
        ensures crash { AddsNothing T.is_honest T.is_open T.may_leave
            self.old.tables self.new.tables (OnOk result) }
        ensures refusals_counted { IsSure T.is_open self.new → AreReached self.old.seen.content
            → CountsRefusal result (T.refusals self.old.tables) (T.refusals self.new.tables) }
        ensures sure { IsSure T.is_open self.new → IsSure T.is_open self.old }
    {
        self.tables.file(upload.kind, &upload.name)
    }

    /// What becomes of a file, if no file of its kind and name is kept.
    fn load_new(&mut self, moment: i64, upload: &Upload) -> Result<Reply, Fault>
        requires { IsSure T.is_open self.old
            → file_in self.old.seen.content upload.now.kind upload.now.name ≡ None }
        ensures makes { IsSure T.is_open self.new
            → FollowsMachine self.old.seen self.new.seen result (λ midnight s.
            load_new midnight s moment upload.now) }
        ensures untouched { IsSure T.is_open self.new
            → RefusalLeaves self.old.seen self.new.seen (reply_of result) }
        ensures sure { IsSure T.is_open self.new → IsSure T.is_open self.old }
        ensures crash { AddsOnly T.is_honest T.is_open T.may_leave T.holds
            self.old.tables self.new.tables (IfReplied (reply_of result))
            (MadeInEachState self.old.seen (λ midnight s. load_new midnight s moment upload.now)) }
        ensures refusals_counted { IsSure T.is_open self.new → RepresentsSome self.old.seen
            → CountsReply (reply_of result)
            (T.refusals self.old.tables) (T.refusals self.new.tables) }
    {
        // Does nothing, but carries a law for the proof: the tables hold the files that were accepted.
        kept_files();
        // Carries another law: the file's name is in its grammar.
        upload.name.as_bytes();
        let judged = self.judge(moment, upload)?;
        self.accept(upload, judged)
    }

    /// What the rows of a file come to, or the first fault in it.
    fn judge(&mut self, moment: i64, upload: &Upload) -> Result<FileRows, Fault>
        ensures judged { IsSure T.is_open self.new → Judges self.old.seen moment upload.now result }
        ensures few { IfOk result (λ judged. length judged.rows ≤ most_rows) }
        ensures same { IsSure T.is_open self.new → self.new.seen ≡ self.old.seen }
        ensures sure { IsSure T.is_open self.new → IsSure T.is_open self.old }
        ensures crash { AddsNothing T.is_honest T.is_open T.may_leave
            self.old.tables self.new.tables (IfTold result) }
        ensures refusals_counted { IsSure T.is_open self.new → RepresentsSome self.old.seen
            → CountsAnswer result (T.refusals self.old.tables) (T.refusals self.new.tables) }
    {
        let rows = read_file(self.alloc, upload.kind, upload.body.as_slice())?;
        let register = self.register_for(&rows)?;
        register.judge_file(self.alloc, &self.zone, moment, &rows)
    }

    /// A register that suffices to judge these rows.
    fn register_for(&mut self, rows: &[Row]) -> Result<Register, StoreFault>
        ensures serves { IsSure T.is_open self.new
            → IfOk result (ServesFor rows.now (whole_register self.old.seen.content)) }
        ensures same { IsSure T.is_open self.new → self.new.seen ≡ self.old.seen }
        ensures crash { AddsNothing T.is_honest T.is_open T.may_leave
            self.old.tables self.new.tables (OnOk result) }
        ensures refusals_counted { IsSure T.is_open self.new → AreReached self.old.seen.content
            → CountsRefusal result (T.refusals self.old.tables) (T.refusals self.new.tables) }
        ensures sure { IsSure T.is_open self.new → IsSure T.is_open self.old }
    {
        self.tables.register(rows)
    }

    /// Writes what the rows of an accepted file change into the tables. The reply is made before that.
    fn accept(&mut self, upload: &Upload, judged: FileRows) -> Result<Reply, Fault>
        requires { length judged.rows ≤ most_rows }
        ensures makes { IsSure T.is_open self.new
            → Accepts self.old.seen self.new.seen (writes_of upload.now judged) (reply_of result) }
        ensures untouched { IsSure T.is_open self.new
            → RefusalLeaves self.old.seen self.new.seen (reply_of result) }
        ensures sure { IsSure T.is_open self.new → IsSure T.is_open self.old }
        ensures crash { AddsOnly T.is_honest T.is_open T.may_leave T.holds
            self.old.tables self.new.tables (IfReplied (reply_of result))
            (IsAcceptedContent self.old.seen (writes_of upload.now judged)) }
        ensures refusals_counted { IsSure T.is_open self.new → AreReached self.old.seen.content
            → CountsReply (reply_of result)
            (T.refusals self.old.tables) (T.refusals self.new.tables) }
    {
        let change = change_of(upload, judged)?;
        let reply = loaded_reply(change.file());
        self.commit(change)?;
        Ok(reply)
    }

    /// Writes a change into the tables: the last call of the store that a request makes.
    fn commit(&mut self, change: LoadChange) -> Result<(), StoreFault>
        ensures written { IsSure T.is_open self.new
            → OnOk result (WritesLoad self.old.seen self.new.seen change) }
        ensures same { IsSure T.is_open self.new → OnErr result (self.new.seen ≡ self.old.seen) }
        ensures sure { IsSure T.is_open self.new → IsSure T.is_open self.old }
        ensures crash { AddsOnly T.is_honest T.is_open T.may_leave T.holds
            self.old.tables self.new.tables (OnOk result)
            (IsLoadedContent self.old.seen change) }
        ensures refusals_counted { IsSure T.is_open self.new → AreReached self.old.seen.content
            → CountsRefusal result (T.refusals self.old.tables) (T.refusals self.new.tables) }
    {
        // Does nothing, but carries a law for the proof: the change makes the machine's tables.
        load_effect();
        self.tables.apply_load(change)
    }
}

/// Does nothing, but carries a fact for a proof: if a file is sent, its name is in its grammar.
pub(crate) fn is_named(request: &Request)
    ensures { NamesItsFile request.now.action }
{
    if let Action::Load(upload) = &request.action {
        upload.name.as_bytes();
    }
}

/// What is written for a file whose rows were judged. It shares the file's bytes.
fn change_of(upload: &Upload, judged: FileRows) -> Result<LoadChange, AllocError>
    requires { length judged.rows ≤ most_rows }
    ensures { IfOk result (λ change. change ≡ writes_of upload.now judged) }
{
    let body = upload.body.share()?;
    let file = KeptFile::new(body, judged.rows().len() as u32, judged.late());
    let (rows, references) = judged.into_parts();
    Ok(LoadChange::new(upload.kind, upload.name, file, rows, references))
}

/// The reply to a file, if `file` of the same kind and name is kept.
fn repeated(file: &KeptFile, upload: &Upload) -> Reply
    ensures { result ≡ repeat_reply file.now upload.now.body }
{
    if file.body() == upload.body.as_slice() {
        loaded_reply(file)
    } else {
        Reply::Refused(Fault::of(Refusal::FileChanged))
    }
}

/// The reply to a file that is kept.
fn loaded_reply(file: &KeptFile) -> Reply
    ensures { result ≡ loaded_reply file.now }
{
    Reply::Loaded(Loaded {
        applied: file.applied(),
        late: file.late(),
    })
}
