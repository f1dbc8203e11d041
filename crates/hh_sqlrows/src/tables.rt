//! The tables of an office: the form of the rows of each, and the texts of its statements.

pub(crate) mod contracts;
pub(crate) mod credits;
pub(crate) mod files;
pub(crate) mod leads;
pub(crate) mod marks;
pub(crate) mod meters;
pub(crate) mod parties;
pub(crate) mod positions;
pub(crate) mod postings;
pub(crate) mod prices;
pub(crate) mod reallocations;
pub(crate) mod references;
pub(crate) mod results;
pub(crate) mod runs;
pub(crate) mod settings;
pub(crate) mod touched;
pub(crate) mod units;

pub use contracts::Contracts;
pub use credits::Credits;
pub use files::Files;
pub use leads::Leads;
pub use marks::Marks;
pub use meters::Meters;
pub use parties::Parties;
pub use positions::Positions;
pub use postings::Postings;
pub use prices::Prices;
pub use reallocations::Reallocations;
pub use references::References;
pub use results::Results;
pub use runs::Runs;
pub use settings::SettingsTable;
pub use touched::Touched;
pub use units::Units;
