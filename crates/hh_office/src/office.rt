//! The office: requests in, replies out, tables kept.

ghost use Rattle.std.specs.Prelude.{◌≡◌, IfOk, OnErr};
ghost use Rattle.hh_store.specs.Crashes.{AddsOnly, LeavesContent};
ghost use Rattle.hh_office.specs.Crashes.{CrashAfterAll, CrashStep, IfReplied, MadeInEachState};
ghost use Rattle.hh_office.specs.steps.Loads.{NamesItsFile};
ghost use Rattle.hh_office.specs.Machine.{step};
ghost use Rattle.hh_office.specs.PartyViews.{ForbidsOthers, ShowsByView};
ghost use Rattle.hh_office.specs.Promises.{ConservesAfter, ConservesAfterAll, HandleStep, RefusalLeaves, RepeatsOnce, RunAllStep, RepresentsAfter, RepresentsAfterAll};
ghost use Rattle.hh_office.specs.steps.Promises.{FollowsMachine, reply_of};
ghost use Rattle.hh_office.specs.Refusals.{CountsReplies, CountsReply, RepresentsSome};
ghost use Rattle.hh_office.specs.Views.{IsSure};

use crate::loads::is_named;
use hh_day::{
    accepted_files_in_range, kept_postings, kept_results, kept_summaries, keys_never_meet,
    load_effect, reached_conserve, run_effect,
};
use hh_names::{Fault, Refusal};
use hh_requests::{Action, Reply, Request};
use hh_store::Tables;
use jiff::tz::TimeZone;
use std::alloc::{AllocError, Global};
use std::marker::Model;

/// The settlement agent's office over its tables. Its Settlement Days begin at the local midnights of its
/// zone (profile). Contracts see the zone, what the tables contain, and the tables themselves.
#[derive(Drop)]
pub struct Office<'z, T: Tables> {
    pub(crate) alloc: Global,
    pub(crate) tables: T,
    pub(crate) zone: TimeZone<'z>,
}

impl<'z, T: Tables> Model for Office<'z, T> {
    ghost use Rattle.hh_office.specs.Views.{Kept, OfficeView};

    ghost Value = { Kept T };

    ghost view = { λ o. record {
      seen = record { zone = o.zone; content = T.content o.tables };
      tables = o.tables;
    } };
}

impl<'z, T: Tables> Office<'z, T> {
    /// An office over these tables, in this zone.
    pub fn new(alloc: Global, tables: T, zone: TimeZone<'z>) -> Office<'z, T>
        ensures seen { result.seen ≡ record { zone = zone.entry; content = T.content tables } }
        ensures tables { result.tables ≡ tables }
    {
        Office {
            alloc,
            tables,
            zone,
        }
    }

    /// The tables. The office ends.
    pub fn into_tables(self) -> T
        ensures same { result ≡ self.entry.tables }
        ensures content { T.content result ≡ self.entry.seen.content }
    {
        let Office {
            alloc: _,
            tables,
            zone: _,
        } = self;
        tables
    }

    /// Answers a request that comes at a moment, in seconds since 1970-01-01T00:00:00Z (profile). The
    /// moment may be earlier than that of the request before. A refused request changes nothing. In the
    /// place of any reply there may be refusal 90, if memory is refused, or refusal 91, if the store
    /// refuses.
    pub fn handle(&mut self, moment: i64, request: &Request) -> Reply
        ensures step { IsSure T.is_open self.new
            → HandleStep self.old.seen self.new.seen moment request.now result }
        ensures represents { IsSure T.is_open self.new
            → RepresentsAfter self.old.seen self.new.seen moment request.now result }
        ensures untouched { IsSure T.is_open self.new
            → RefusalLeaves self.old.seen self.new.seen result }
        ensures once { IsSure T.is_open self.new
            → RepeatsOnce self.old.seen self.new.seen request.now result }
        ensures sums { IsSure T.is_open self.new
            → ConservesAfter self.old.seen self.new.seen moment request.now result }
        ensures view { IsSure T.is_open self.new → ShowsByView self.old.seen request.now result }
        ensures foreign { IsSure T.is_open self.new
            → ForbidsOthers self.old.seen request.now result }
        ensures sure { IsSure T.is_open self.new → IsSure T.is_open self.old }
        ensures crash { AddsOnly T.is_honest T.is_open T.may_leave T.holds
            self.old.tables self.new.tables (IfReplied result)
            (MadeInEachState self.old.seen (λ midnight s. step midnight s moment request.now)) }
        ensures left { CrashStep T.is_honest T.is_open T.may_leave T.holds
            self.old self.new moment request.now result }
        ensures refusals_counted { IsSure T.is_open self.new → RepresentsSome self.old.seen
            → CountsReply result (T.refusals self.old.tables) (T.refusals self.new.tables) }
    {
        // Do nothing, but carry laws for the proof: the tables contain the machine's runs with their rows
        // and postings, what is written makes the machine's tables, and these add up.
        kept_summaries();
        kept_results();
        kept_postings();
        load_effect();
        run_effect();
        reached_conserve();
        // Carry facts about states: files have names in their grammar, and no party has the operator's key.
        is_named(request);
        accepted_files_in_range();
        keys_never_meet();
        self.shows_left();
        let reply = self.reply_to(moment, request);
        self.shows_left();
        reply
    }

    /// Answers a request that comes at a moment, as `handle` does.
    fn reply_to(&mut self, moment: i64, request: &Request) -> Reply
        ensures step { IsSure T.is_open self.new
            → HandleStep self.old.seen self.new.seen moment request.now result }
        ensures untouched { IsSure T.is_open self.new
            → RefusalLeaves self.old.seen self.new.seen result }
        ensures sure { IsSure T.is_open self.new → IsSure T.is_open self.old }
        ensures crash { AddsOnly T.is_honest T.is_open T.may_leave T.holds
            self.old.tables self.new.tables (IfReplied result)
            (MadeInEachState self.old.seen (λ midnight s. step midnight s moment request.now)) }
        ensures refusals_counted { IsSure T.is_open self.new → RepresentsSome self.old.seen
            → CountsReply result (T.refusals self.old.tables) (T.refusals self.new.tables) }
    {
        match self.act(moment, request) {
            Ok(reply) => reply,
            Err(fault) => Reply::Refused(fault),
        }
    }

    /// Does nothing, but carries a fact for a proof: if the tables are open, what a crash leaves of them
    /// contains what contracts see.
    fn shows_left(&self)
        ensures { LeavesContent T.is_open T.may_leave T.holds
            self.now.tables self.now.seen.content }
    {
        self.tables.shows_left();
    }

    /// Answers requests one after the other (profile). Each has the moment at which it comes, in seconds
    /// since 1970-01-01T00:00:00Z. Memory for the list of replies is taken first.
    ///
    /// # Errors
    ///
    /// Memory for the list of replies was refused, and no request was handled.
    pub fn run_all(&mut self, requests: &[(i64, Request)]) -> Result<Vec<Reply>, AllocError>
        ensures run { IsSure T.is_open self.new → IfOk result (λ replies.
            RunAllStep self.old.seen self.new.seen requests.now replies.items) }
        ensures represents { IsSure T.is_open self.new → IfOk result (λ replies.
            RepresentsAfterAll self.old.seen self.new.seen requests.now replies.items) }
        ensures sums { IsSure T.is_open self.new → IfOk result (λ replies.
            ConservesAfterAll self.old.seen self.new.seen requests.now replies.items) }
        ensures none { IsSure T.is_open self.new → OnErr result (self.new.seen ≡ self.old.seen) }
        ensures sure { IsSure T.is_open self.new → IsSure T.is_open self.old }
        ensures left { IfOk result (λ replies.
            CrashAfterAll T.is_honest T.is_open T.may_leave T.holds
            self.old self.new requests.now replies.items) }
        ensures refusals_counted { IsSure T.is_open self.new → RepresentsSome self.old.seen
            → IfOk result (λ replies. CountsReplies replies.items
            (T.refusals self.old.tables) (T.refusals self.new.tables)) }
    {
        // Does nothing, but carries a law for the proof: the tables of the machine's states add up.
        reached_conserve();
        let mut replies = Vec::with_capacity(self.alloc, requests.len())?;
        for request in requests.iter() {
            let pushed = replies.push(self.handle_timed(request));
            prove!(pushed.is_ok());
        }
        self.shows_left();
        Ok(replies)
    }

    /// Answers a request at its moment.
    fn handle_timed(&mut self, request: &(i64, Request)) -> Reply
        ensures makes { IsSure T.is_open self.new
            → HandleStep self.old.seen self.new.seen request.now.0 request.now.1 result }
        ensures sure { IsSure T.is_open self.new → IsSure T.is_open self.old }
        ensures named { NamesItsFile request.now.1.action }
        ensures crash { AddsOnly T.is_honest T.is_open T.may_leave T.holds
            self.old.tables self.new.tables (IfReplied result)
            (MadeInEachState self.old.seen (λ midnight s.
            step midnight s request.now.0 request.now.1)) }
        ensures refusals_counted { IsSure T.is_open self.new → RepresentsSome self.old.seen
            → CountsReply result (T.refusals self.old.tables) (T.refusals self.new.tables) }
    {
        is_named(&request.1);
        self.handle(request.0, &request.1)
    }

    /// Does what a request asks, or refuses it with 60 if its key does not allow that.
    fn act(&mut self, moment: i64, request: &Request) -> Result<Reply, Fault>
        ensures makes { IsSure T.is_open self.new
            → FollowsMachine self.old.seen self.new.seen result (λ midnight s.
            step midnight s moment request.now) }
        ensures untouched { IsSure T.is_open self.new
            → RefusalLeaves self.old.seen self.new.seen (reply_of result) }
        ensures sure { IsSure T.is_open self.new → IsSure T.is_open self.old }
        ensures crash { AddsOnly T.is_honest T.is_open T.may_leave T.holds
            self.old.tables self.new.tables (IfReplied (reply_of result))
            (MadeInEachState self.old.seen (λ midnight s. step midnight s moment request.now)) }
        ensures refusals_counted { IsSure T.is_open self.new → RepresentsSome self.old.seen
            → CountsReply (reply_of result)
            (T.refusals self.old.tables) (T.refusals self.new.tables) }
    {
        if !self.may(request)? {
            return Err(Fault::of(Refusal::Forbidden));
        }
        match &request.action {
            Action::Load(upload) => self.load(moment, upload),
            Action::Run(run) => self.run(moment, *run),
            Action::Account { account, date } => self.account(account, *date),
            Action::Balance { account } => self.balance(account),
            Action::Contracts { account, date } => self.contracts(account, *date),
            Action::Runs { date } => self.runs(*date),
        }
    }
}
