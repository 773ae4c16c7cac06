// How large a glyph, its zones, its control values and a sheet may be: document 01, "Sizes", and document 02, K6. Above these, every entry answers 2.
//
// Each size stands here once, as a constant and as a definition of specs/Limits.antt, and a change of it moves these two lines.
#![tactic(auto)]

ghost use Rattle.std.specs.Prelude.{◌≡◌, leb};
ghost use Rattle.limits.specs.Limits.{most_points, most_contours, most_control_values, most_words};

// Points of either zone.
pub const POINTS: usize = 65535;

pub const CONTOURS: usize = 65535;

pub const CONTROL_VALUES: usize = 16384;
// Words of a sheet.
pub const WORDS: usize = 262144;

pub fn points_fit(n: usize) -> bool
    ensures { result ≡ leb n most_points }
{
    n <= POINTS
}

pub fn contours_fit(n: usize) -> bool
    ensures { result ≡ leb n most_contours }
{
    n <= CONTOURS
}

pub fn control_values_fit(n: usize) -> bool
    ensures { result ≡ leb n most_control_values }
{
    n <= CONTROL_VALUES
}

pub fn words_fit(n: usize) -> bool
    ensures { result ≡ leb n most_words }
{
    n <= WORDS
}
