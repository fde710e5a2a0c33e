//! What a connection gives out, against the segments that were recorded.

ghost use Rattle.std.specs.Prelude.{◌≡◌, ◌≤◌, ◌+◌, ◌*◌, ℕ, List, ◌∷◌, length, Some};
ghost use Rattle.std.specs.List.{Contains};
ghost use Rattle.tcp_streams.specs.Connections.{own, turn};
ghost use Rattle.tcp_streams.specs.Pieces.{Mark};
ghost use Rattle.tcp_streams.specs.Progress.{GiveOut, how_many_wait};
ghost use Rattle.tcp_streams.specs.Runs.{Call, IsFirst, IsGiven, IsLogged, Log, run};
ghost use Rattle.tcp_streams.specs.Tiles.{AreConsistent, AreTiles, Tile};
ghost use Rattle.tcp_streams.specs.declared.connection.Connection.{Connection as AnyConnection};
ghost use Rattle.tcp_streams.specs.declared.connection.End.{End as AnyEnd};
ghost use Rattle.tcp_streams.specs.declared.piece.Piece.{Piece as AnyPiece};

/// Whatever is called, what is given out of a direction tiles its places, each once and in order: each octet is that of the
/// first recorded segment that has its place, and a gap has only places that no segment had which was recorded before.
pub fn each_place_once()
    ensures { (e : AnyEnd) (calls : List Call) (first : ℕ) (l : Log) → IsLogged e first l → IsLogged e first (run e calls l) }
{}

/// Of the pieces that may go, the one of the lowest frame goes first, after what it acknowledges.
pub fn answers_come_after_questions()
    ensures { (c : AnyConnection) (d : AnyEnd) (p : AnyPiece) (ps : List AnyPiece) → turn c ≡ Some d → (own d c).waiting ≡ p ∷ ps
        → IsFirst c d p }
{}

/// An octet that is given out at a place is a function of the recorded segments, whenever gaps are given up.
pub fn octets_are_determined()
    ensures { (segments : List AnyPiece) (first to first' to' place : ℕ) (ts us : List Tile) (m n : Mark)
        → AreTiles segments first ts to → AreTiles segments first' us to'
        → IsGiven ts place m → IsGiven us place n → m ≡ n }
{}

/// Where no two copies of an octet differ, the order in which segments were recorded makes no difference.
pub fn order_makes_no_difference()
    ensures { (segments others : List AnyPiece) (first to first' to' place : ℕ) (ts us : List Tile) (m n : Mark)
        → AreConsistent segments → ((p : AnyPiece) → Contains others p → Contains segments p)
        → AreTiles segments first ts to → AreTiles others first' us to'
        → IsGiven ts place m → IsGiven us place n → m ≡ n }
{}

/// What comes next comes to an end: `next` and `finish` give something out at most five times for each piece that waits, and six
/// times more, until another segment is read.
pub fn next_comes_to_an_end()
    ensures { (calls : List Call) (c : AnyConnection) → GiveOut calls c → length calls ≤ 5 * how_many_wait c + 6 }
{}
