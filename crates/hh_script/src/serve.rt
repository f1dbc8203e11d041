//! Lines that serve connections.

ghost use Rattle.std.specs.Prelude.{◌≡◌};
ghost use Rattle.hh_word_values.specs.Connections.{count_value, port_value};
ghost use Rattle.hh_word_values.specs.Values.{moment_value};
ghost use Rattle.hh_script.specs.Serves.{serve_from, serve_value};
ghost use Rattle.hh_script.specs.Words.{words_of};

use crate::words::{only_word, split_word};
use hh_word_values::{read_count, read_moment, read_port};

/// `serve SECONDS PORT COUNT`: connections to be served on a port of the loopback interface (profile).
#[derive(Clone, Copy, Debug, PartialEq, Eq)]
pub struct ServeLine {
    /// The moment at which each request is handled, in seconds since 1970-01-01T00:00:00Z.
    pub moment: i64,
    /// The port. For 0 the machine chooses a free one.
    pub port: u16,
    /// How many connections are served before the script goes on: at most 1,000,000.
    pub count: u32,
}

impl ServeLine {
    /// The line with these words after `serve`, if they form one.
    pub(crate) fn read(text: &[u8]) -> Option<ServeLine>
        ensures { result ≡ serve_value (words_of text.now) }
    {
        let (moment, text) = split_word(text)?;
        let (port, count) = split_word(text)?;
        ServeLine::of(moment, port, only_word(count)?)
    }

    /// The line with these three words, if each is in its grammar.
    fn of(moment: &[u8], port: &[u8], count: &[u8]) -> Option<ServeLine>
        ensures { result ≡ serve_from (moment_value moment.now) (port_value port.now)
            (count_value count.now) }
    {
        Some(ServeLine {
            moment: read_moment(moment)?,
            port: read_port(port)?,
            count: read_count(count)?,
        })
    }
}
