// Whether a glyph's contour ends rise strictly and lie below its number of points: document 02, K8.
//
// `ends_rise` is one equation with `ends_rise` of specs/Ends.antt, for every list and number. Every entry that is given contours asks it once, and answers 14 where it says
// no; what walks over contours afterwards takes them as they are.
#![tactic(auto)]

ghost use Rattle.std.specs.Prelude.{◌≡◌};
ghost use Rattle.contour_ends.specs.Ends.{ends_rise};

pub fn ends_rise(contours: &[u16], points: usize) -> bool
    ensures { result ≡ ends_rise points contours.now }
{
    let n = contours.len();
    if n == 0 {
        return true;
    }
    if points <= usize::from(contours[n - 1]) {
        return false;
    }
    // No exit between, so that the compiler takes several pairs at once.
    let mut rise = true;
    for k in 1..n {
        rise &= contours[k - 1] < contours[k];
    }
    rise
}
