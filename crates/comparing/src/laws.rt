//! Laws of the definitions, with nothing to run.
ghost use Rattle.comparing.specs.Laws.{AgreesWithItself, AsWantedMeans};

/// A content agrees with what is wanted in every aspect exactly if it is what is wanted, but for the order of members
/// (`means`). So what is wanted agrees with itself (`itself`).
pub fn as_wanted_means()
    ensures means { AsWantedMeans }
    ensures itself { AgreesWithItself }
{}
