//! Ports, and how many connections are served.

ghost use Rattle.std.specs.Prelude.{◌≡◌};
ghost use Rattle.hh_word_values.specs.Connections.{count_value, port_value};

use hh_num::read_natural;

/// The most connections that one command may serve (profile).
pub const MOST_CONNECTIONS: u32 = 1_000_000;

/// Reads a port, written only in digits: 0 to 65,535 (profile).
#[tactic(auto, unfolding(crate::specs::Connections::port_value))]
pub fn read_port(word: &[u8]) -> Option<u16>
    ensures { result ≡ port_value word.now }
{
    u16::try_from(read_natural(word)?).ok()
}

/// Reads a count of connections, written only in digits: 0 to 1,000,000 (profile).
#[tactic(auto, unfolding(crate::specs::Connections::count_value))]
pub fn read_count(word: &[u8]) -> Option<u32>
    ensures { result ≡ count_value word.now }
{
    let count = u32::try_from(read_natural(word)?).ok()?;
    if count <= MOST_CONNECTIONS {
        Some(count)
    } else {
        None
    }
}
