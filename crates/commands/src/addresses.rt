//! Addresses to listen on and to connect to.
ghost use Rattle.std.specs.Prelude.{◌↔◌, IsTrue};
ghost use Rattle.std.specs.Bool.{MatchBool};
ghost use Rattle.commands.specs.Addresses.{IsAddress, IsNoAddress, IsPort};

/// Whether a text spells a port that is at least this one.
fn is_port(least: u16, text: &str) -> bool
    ensures { IsTrue result ↔ IsPort least text.now }
{
    match text.parse::<u16>() {
        Ok(port) => least <= port,
        Err(_) => false,
    }
}

/// Whether a text is HOST:PORT, with a port that is at least this one.
pub(crate) fn is_address(least: u16, text: &str) -> bool
    ensures { MatchBool result (IsAddress least text.now) (IsNoAddress least text.now) }
{
    match text.rsplit_once(':') {
        Some((host, port)) => !host.is_empty() && is_port(least, port),
        None => false,
    }
}
