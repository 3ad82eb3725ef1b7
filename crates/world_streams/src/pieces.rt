//! What a sink took, piece after piece.

ghost use Rattle.world_streams.specs.Pieces.{PartsAreLonger, PartsGoBehind, RisesGoBehind};

/// What was taken in pieces, of which the last may be cut short:
///
/// - `longer`: a first part of a first part is a first part;
/// - `behind`: a first part of a second piece behind all of the first is one of both together;
/// - `rises`: a count of faults that rose behind a piece has risen.
pub fn piece_laws()
    ensures longer { PartsAreLonger }
    ensures behind { PartsGoBehind }
    ensures rises { RisesGoBehind }
{}
