//! The kinds of run.

ghost use Rattle.std.specs.Prelude.{◌≡◌};
ghost use Rattle.std.specs.Cmp.{partial_order_from_own_ties};
ghost use Rattle.std.specs.Cmp.Rules.{comparing};
ghost use Rattle.std.specs.Ordering.{as_partial_cmp, eq_by_cmp};
ghost use Rattle.std.proofs.Common.{rules};
ghost use Rattle.hh_runs.specs.RunKinds.{run_kind_cmp, run_kind_code, run_kind_number, run_kind_value};

use std::cmp::Ordering;

/// A kind of settlement run. The kinds are in the order in which a date has them (profile).
#[derive(Clone, Copy, Debug)]
pub enum RunKind {
    /// The initial settlement run, the first of each date.
    SF,
    /// The first reconciliation run.
    R1,
    /// The second reconciliation run.
    R2,
    /// The third reconciliation run.
    R3,
    /// The final reconciliation run.
    RF,
    /// The run after a dispute.
    DF,
}

impl RunKind {
    ghost use Rattle.hh_runs.specs.NextRun.{is_earlier_kind};

    /// The kind that a code names: `SF`, `R1`, `R2`, `R3`, `RF` or `DF` (profile). `None` for any
    /// other text.
    #[tactic(auto, unfolding(crate::specs::RunKinds::run_kind_value))]
    pub fn read(text: &[u8]) -> Option<RunKind>
        ensures { result ≡ run_kind_value text.now }
    {
        match text {
            b"SF" => Some(RunKind::SF),
            b"R1" => Some(RunKind::R1),
            b"R2" => Some(RunKind::R2),
            b"R3" => Some(RunKind::R3),
            b"RF" => Some(RunKind::RF),
            b"DF" => Some(RunKind::DF),
            _ => None,
        }
    }

    /// How many kinds come before this one.
    fn number(self) -> u8
        ensures { result ≡ run_kind_number self }
    {
        match self {
            RunKind::SF => 0,
            RunKind::R1 => 1,
            RunKind::R2 => 2,
            RunKind::R3 => 3,
            RunKind::RF => 4,
            RunKind::DF => 5,
        }
    }

    /// Whether the kind comes before another.
    pub(crate) fn is_before(self, other: RunKind) -> bool
        ensures { result ≡ is_earlier_kind self other }
    {
        self.number() < other.number()
    }

    /// The code that names the kind.
    pub fn code(self) -> &'static str
        ensures { result.now ≡ run_kind_code self }
    {
        match self {
            RunKind::SF => "SF",
            RunKind::R1 => "R1",
            RunKind::R2 => "R2",
            RunKind::R3 => "R3",
            RunKind::RF => "RF",
            RunKind::DF => "DF",
        }
    }
}

impl PartialEq for RunKind {
    ghost eq = { eq_by_cmp run_kind_cmp };

    ghost laws = { Prim.search (comparing, rules) };

    fn eq(&self, other: &RunKind) -> bool {
        self.cmp(other).is_eq()
    }
}

impl Eq for RunKind {
    ghost laws = { Prim.search (comparing, rules) };
}

impl Ord for RunKind {
    ghost cmp = { run_kind_cmp };

    ghost total = { Prim.search (comparing, rules) };

    ghost matches_partial_cmp = { Prim.search (comparing, rules) };

    ghost matches_eq = { Prim.search (comparing, rules) };

    fn cmp(&self, other: &RunKind) -> Ordering {
        self.number().cmp(&other.number())
    }
}

impl PartialOrd for RunKind {
    ghost partial_cmp = { as_partial_cmp run_kind_cmp };

    ghost laws = { partial_order_from_own_ties (Prim.search (comparing, rules)) (Prim.search (comparing, rules)) };

    fn partial_cmp(&self, other: &RunKind) -> Option<Ordering> {
        Some(self.cmp(other))
    }
}
