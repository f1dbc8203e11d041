//! What is kept of runs, in memory.

ghost use Rattle.std.specs.Prelude.{◌≡◌, ◌++◌, filter_map, IfOk, None, OnErr, OnOk};
ghost use Rattle.std.specs.FinMap.{find, put};
ghost use Rattle.hh_tables.specs.Tables.{put_all, IsTable};
ghost use Rattle.hh_states.specs.Content.{posting_key_cmp};
ghost use Rattle.hh_states.specs.Reads.{posting_to, result_in, summary_on};
ghost use Rattle.hh_states.specs.Runs.{run_key_cmp};
ghost use Rattle.hh_plain_tables.specs.steps.KeptRuns.{kept_with, no_runs};

use crate::kept_run::KeptRun;
use hh_calc::AccountRow;
use hh_kept_rows::{RunChange, postings_to, results_of, runs_on};
use hh_names::{Account, PeriodNumber};
use hh_num::Pence;
use hh_runs::{RunKey, RunKind, Summary};
use hh_states::PostingKey;
use hh_tables::ListTable;
use hh_time::SettlementDate;
use std::alloc::{AllocError, Global};
use std::marker::Model;

/// The runs, each with its summary, the rows of its accounts and its credits, and the postings of all
/// runs, as lists in the order of their keys. The rows of a run are lists of their own, so a new run doesn't
/// copy the rows of earlier runs. Contracts see `RunTables`: all summaries, results, credits and postings.
#[derive(Drop)]
pub(crate) struct KeptRuns {
    runs: ListTable<RunKey, KeptRun>,
    postings: ListTable<PostingKey, Pence>,
}

impl Model for KeptRuns {
    ghost use Rattle.hh_plain_tables.specs.steps.KeptRuns.{RunTables, credits_kept, results_kept, summaries_of, AreKept};

    ghost Value = { RunTables };

    ghost view = { λ k. record {
      runs = summaries_of k.runs;
      results = results_kept k.runs;
      credits = credits_kept k.runs;
      postings = k.postings;
    } };

    ghost invariant = { λ k. AreKept k.runs };
}

impl KeptRuns {
    /// No runs. Takes no memory.
    pub(crate) fn new(alloc: Global) -> KeptRuns
        ensures { result ≡ no_runs }
    {
        KeptRuns {
            runs: ListTable::new(alloc),
            postings: ListTable::new(alloc),
        }
    }

    /// Puts in what is written for a run that is not there yet, whole or not at all. `Err` only if memory is
    /// refused.
    pub(crate) fn put(&mut self, alloc: Global, change: RunChange) -> Result<(), AllocError>
        ensures ok { find run_key_cmp change.key self.old.runs ≡ None
            → OnOk result (self.new ≡ kept_with change self.old) }
        ensures err { OnErr result (self.new ≡ self.old) }
    {
        let (key, summary) = (change.key(), change.summary());
        let rows = change.into_rows();
        let run = KeptRun::of_rows(alloc, summary, rows.results, rows.credits)?;
        put_run(
            alloc,
            &mut self.runs,
            key,
            run,
            &mut self.postings,
            rows.postings,
        )?;
        Ok(())
    }

    /// The runs of a date with their summaries, in order. `Err` only if memory is refused.
    pub(crate) fn runs_on(
        &self,
        alloc: Global,
        date: SettlementDate,
    ) -> Result<Vec<(RunKind, Summary)>, AllocError>
        ensures { IfOk result (λ runs. runs.items ≡ filter_map (summary_on date) self.now.runs) }
    {
        let runs = self.summaries(alloc)?;
        runs_on(alloc, date, &runs)
    }

    /// All runs with their summaries, in order. `Err` only if memory is refused.
    fn summaries(&self, alloc: Global) -> Result<Vec<(RunKey, Summary)>, AllocError>
        ensures { IfOk result (λ runs. runs.items ≡ self.now.runs) }
    {
        let runs = self.runs.rows();
        runs.iter().map(|run| (run.0, run.1.summary)).collect(alloc)
    }

    /// The rows of a run's accounts, by Settlement Period, then by account. `Err` only if memory is
    /// refused.
    pub(crate) fn results_of(
        &self,
        alloc: Global,
        run: &RunKey,
    ) -> Result<Vec<(PeriodNumber, AccountRow)>, AllocError>
        ensures { IfOk result (λ rows.
            rows.items ≡ filter_map (result_in run.now) self.now.results) }
    {
        match self.runs.find(run) {
            Some(kept) => results_of(alloc, run, kept.results.rows()),
            None => Ok(Vec::new(alloc)),
        }
    }

    /// What the runs posted to an account, by the dates of the runs, then by their kinds. `Err` only if
    /// memory is refused.
    pub(crate) fn postings_to(
        &self,
        alloc: Global,
        account: &Account,
    ) -> Result<Vec<(RunKey, Pence)>, AllocError>
        ensures { IfOk result (λ rows.
            rows.items ≡ filter_map (posting_to account.now) self.now.postings) }
    {
        postings_to(alloc, account, self.postings.rows())
    }

    /// All postings of runs, in the order of their keys.
    pub(crate) fn postings(&self) -> &[(PostingKey, Pence)]
        ensures { result.now ≡ self.now.postings }
    {
        self.postings.rows()
    }
}

/// Puts a run into the table of runs, and its postings into that of the postings, whole or not at all.
/// `Err` only if memory is refused.
fn put_run(
    alloc: Global,
    runs: &mut ListTable<RunKey, KeptRun>,
    key: RunKey,
    run: KeptRun,
    postings: &mut ListTable<PostingKey, Pence>,
    rows: Vec<(PostingKey, Pence)>,
) -> Result<(), AllocError>
    ensures run { OnOk result (runs.new ≡ put run_key_cmp key run runs.old) }
    ensures postings { OnOk result (postings.new
        ≡ put_all posting_key_cmp rows.items postings.old) }
    ensures run_err { OnErr result (runs.new ≡ runs.old) }
    ensures postings_err { OnErr result (postings.new ≡ postings.old) }
{
    if postings.come_behind(&rows) {
        return put_behind(runs, key, run, postings, rows);
    }
    let all = postings.with_rows(alloc, rows)?;
    runs.put_row(key, run)?;
    *postings = all;
    Ok(())
}

/// The same, for postings that come behind those of the table. If the run can't be put in, the table is
/// cut back to the postings that it had. `Err` only if memory is refused.
fn put_behind(
    runs: &mut ListTable<RunKey, KeptRun>,
    key: RunKey,
    run: KeptRun,
    postings: &mut ListTable<PostingKey, Pence>,
    rows: Vec<(PostingKey, Pence)>,
) -> Result<(), AllocError>
    requires behind { IsTable posting_key_cmp (postings.old ++ rows.items) }
    ensures run { OnOk result (runs.new ≡ put run_key_cmp key run runs.old) }
    ensures postings { OnOk result (postings.new
        ≡ put_all posting_key_cmp rows.items postings.old) }
    ensures run_err { OnErr result (runs.new ≡ runs.old) }
    ensures postings_err { OnErr result (postings.new ≡ postings.old) }
{
    let count = postings.len();
    postings.put_behind(rows)?;
    let put = runs.put_row(key, run);
    if put.is_err() {
        postings.truncate(count);
    }
    put
}
