//! How painted lines are written in color.

ghost use Rattle.std.specs.Prelude.{◌≡◌};
ghost use Rattle.std.specs.List.{flat_map};
ghost use Rattle.tabled_painting.specs.InColor.{in_color};
ghost use Rattle.tabled_painting.specs.Painted.{Painted, plain};
ghost use Rattle.tabled_claims.specs.Stretches.{stretches, between_its_texts};

/// A line in color is its stretches of one color, each between the two texts of its color: so each color begins and ends within the
/// line, and nothing is written where there is none.
pub fn line_in_color_is_its_stretches()
    ensures { (line : Painted) → in_color line ≡ flat_map between_its_texts (stretches line) }
{}

/// Without the texts of the colors, the stretches of a line are its characters.
pub fn stretches_are_the_line()
    ensures { (line : Painted) → plain line ≡ flat_map (λ stretch. stretch.1) (stretches line) }
{}
