//! The rows of a run's accounts, each under a key that names its account.

ghost use Rattle.hh_sqlchanges.specs.OwnAccounts.{RowsOfTheirAccounts};

/// In a run that the machine makes, each row is for the account that its key names. So the account is not
/// stored beside the amounts.
pub fn rows_of_their_accounts()
    ensures { RowsOfTheirAccounts }
{}
