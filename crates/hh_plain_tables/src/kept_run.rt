//! What is kept of one run, in memory.

ghost use Rattle.std.specs.Prelude.{◌≡◌, [], IfOk};
ghost use Rattle.hh_tables.specs.Tables.{put_all};
ghost use Rattle.hh_states.specs.Content.{credit_key_cmp, result_key_cmp};

use hh_calc::AccountRow;
use hh_num::Ticks;
use hh_runs::Summary;
use hh_states::{CreditKey, ResultKey};
use hh_tables::ListTable;
use std::alloc::{AllocError, Global};

/// The summary of a run, the rows of its accounts and its credits, the rows as lists in the order of their
/// keys.
#[derive(Drop)]
pub(crate) struct KeptRun {
    pub(crate) summary: Summary,
    pub(crate) results: ListTable<ResultKey, AccountRow>,
    pub(crate) credits: ListTable<CreditKey, Ticks>,
}

impl KeptRun {
    /// A run with this summary and these rows. Rows whose keys rise are taken over without a copy. `Err`
    /// only if memory is refused.
    pub(crate) fn of_rows(
        alloc: Global,
        summary: Summary,
        results: Vec<(ResultKey, AccountRow)>,
        credits: Vec<(CreditKey, Ticks)>,
    ) -> Result<KeptRun, AllocError>
        ensures summary { IfOk result (λ run. run.summary ≡ summary) }
        ensures results { IfOk result (λ run.
            run.results ≡ put_all result_key_cmp results.items []) }
        ensures credits { IfOk result (λ run.
            run.credits ≡ put_all credit_key_cmp credits.items []) }
    {
        let results = table_of(alloc, results)?;
        let credits = table_of(alloc, credits)?;
        Ok(KeptRun {
            summary,
            results,
            credits,
        })
    }
}

/// The table of rows. If their keys rise, their list is taken over without a copy. `Err` only if memory is
/// refused.
fn table_of<K: Ord + Copy, V: Copy>(
    alloc: Global,
    rows: Vec<(K, V)>,
) -> Result<ListTable<K, V>, AllocError>
    ensures { IfOk result (λ table. table ≡ put_all K.cmp rows.items []) }
{
    let mut table = ListTable::new(alloc);
    if table.come_behind(&rows) {
        table.put_behind(rows)?;
        return Ok(table);
    }
    table.with_rows(alloc, rows)
}
