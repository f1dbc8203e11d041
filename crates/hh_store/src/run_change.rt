//! What a new run changes in the tables.

ghost use Rattle.std.specs.Prelude.{◌≡◌};
ghost use Rattle.hh_store.specs.OwnRows.{AreOwnRows};

use hh_states::{AccountRow, CreditKey, Pence, PostingKey, ResultKey, RunKey, Summary, Ticks};
use std::marker::Model;

/// What is written into the tables for a new run: its summary, the rows of its accounts, its credits and
/// its postings, each under its key. All rows are the run's own.
#[derive(Debug, Drop)]
pub struct RunChange {
    key: RunKey,
    summary: Summary,
    results: Vec<(ResultKey, AccountRow)>,
    credits: Vec<(CreditKey, Ticks)>,
    postings: Vec<(PostingKey, Pence)>,
}

impl Model for RunChange {
    ghost use Rattle.hh_states.specs.Changes.{RunChangeView};
    ghost use Rattle.hh_store.specs.OwnRows.{AreOwnRows};

    ghost Value = { RunChangeView };

    ghost view = { λ c. record {
      key = c.key;
      summary = c.summary;
      results = c.results.items;
      credits = c.credits.items;
      postings = c.postings.items;
    } };

    ghost invariant = { λ c.
        AreOwnRows c.key c.results.items c.credits.items c.postings.items };
}

impl RunChange {
    /// What is written for a run of this date and kind with this summary and these rows of its own.
    pub fn new(
        key: RunKey,
        summary: Summary,
        results: Vec<(ResultKey, AccountRow)>,
        credits: Vec<(CreditKey, Ticks)>,
        postings: Vec<(PostingKey, Pence)>,
    ) -> RunChange
        requires own { AreOwnRows key results.items credits.items postings.items }
        ensures { result ≡ record {
          key = key;
          summary = summary;
          results = results.items;
          credits = credits.items;
          postings = postings.items;
        } }
    {
        RunChange {
            key,
            summary,
            results,
            credits,
            postings,
        }
    }

    /// The run's date and kind.
    pub fn key(&self) -> RunKey
        ensures { result ≡ self.now.key }
    {
        self.key
    }

    /// The run's summary.
    pub fn summary(&self) -> Summary
        ensures { result ≡ self.now.summary }
    {
        self.summary
    }

    /// The rows of the run's accounts, in the order in which they were given.
    pub fn results(&self) -> &[(ResultKey, AccountRow)]
        ensures { result.now ≡ self.now.results }
    {
        &self.results
    }

    /// The run's credits, in the order in which they were given: energy in ticks.
    pub fn credits(&self) -> &[(CreditKey, Ticks)]
        ensures { result.now ≡ self.now.credits }
    {
        &self.credits
    }

    /// The run's postings, in the order in which they were given, in pence.
    pub fn postings(&self) -> &[(PostingKey, Pence)]
        ensures { result.now ≡ self.now.postings }
    {
        &self.postings
    }

    /// The rows of the run's accounts, its credits and its postings. They are moved, not copied.
    pub fn into_rows(self) -> RunRows
        ensures results { result.results.items ≡ self.results }
        ensures credits { result.credits.items ≡ self.credits }
        ensures postings { result.postings.items ≡ self.postings }
        ensures own { AreOwnRows self.key
            result.results.items result.credits.items result.postings.items }
    {
        RunRows {
            results: self.results,
            credits: self.credits,
            postings: self.postings,
        }
    }
}

/// What a new run writes besides its summary, each row under its key.
#[derive(Debug, Drop)]
pub struct RunRows {
    /// The rows of its accounts.
    pub results: Vec<(ResultKey, AccountRow)>,
    /// Its credits: energy in ticks.
    pub credits: Vec<(CreditKey, Ticks)>,
    /// Its postings, in pence.
    pub postings: Vec<(PostingKey, Pence)>,
}
