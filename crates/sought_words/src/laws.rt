//! What holds of all places of words.
ghost use Rattle.sought_words.specs.Nearest.{GreatestIsFound, LeastIsFound};

/// What is found onward is the least place from there on, and what is found backward the greatest one before; none is found
/// only where there is none.
pub fn nearest_places_are_found()
    ensures onward { LeastIsFound }
    ensures backward { GreatestIsFound }
{}
