//! Places with their bytes.

ghost use Rattle.std.specs.Prelude.{◌≡◌, ◌≤◌, ◌<◌, ◌+◌, ◌-◌, ◌^◌};
ghost use Rattle.std.specs.Char.{len_utf8};
ghost use Rattle.evo_lex.specs.Tokenization as spec;

use evo_base::Place;

/// A place in a text, and the number of bytes before it.
#[derive(Clone, Copy)]
pub struct Position {
    pub place: Place,
    pub at: u32,
}

impl Position {
    /// Where a text begins.
    pub fn origin() -> Position
        ensures { result ≡ spec.origin }
    {
        Position {
            place: Place { line: 1, col: 1 },
            at: 0,
        }
    }
}

fn behind(c: char, spot: Position) -> Position
    requires at { spot.at + len_utf8 c < 2 ^ 32 - 1 }
    requires line { spot.place.line ≤ spot.at + 1 }
    requires column { spot.place.col ≤ spot.at + 1 }
    ensures { result ≡ spec.behind c spot }
{
    let at = spot.at + c.len_utf8() as u32;
    let place = if c == '\n' {
        Place {
            line: spot.place.line + 1,
            col: 1,
        }
    } else {
        Place {
            line: spot.place.line,
            col: spot.place.col + 1,
        }
    };
    Position { place, at }
}

/// The spot behind these characters.
pub fn beyond(text: &[char], spot: Position) -> Position
    requires at { (spec.beyond text.now spot).at < 2 ^ 32 - 1 }
    requires line { spot.place.line ≤ spot.at + 1 }
    requires column { spot.place.col ≤ spot.at + 1 }
    ensures value { result ≡ spec.beyond text.now spot }
    ensures forward { spot.at ≤ result.at }
    ensures line { result.place.line ≤ result.at + 1 }
    ensures column { result.place.col ≤ result.at + 1 }
{
    let mut reached = spot;
    for c in text {
        reached = behind(*c, reached);
    }
    reached
}
