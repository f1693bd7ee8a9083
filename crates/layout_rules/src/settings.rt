// The settings of ways.
ghost use Rattle.std.specs.Prelude.{◌≡◌, not, ◌==◌};
ghost use Rattle.firsts.specs.Claims.{all_below};
ghost use Rattle.layout_rules.specs.Ways.{named, names, once_each};
ghost use Rattle.layout_rules.specs.WayPairs.{within};

use station::Setting;

// Whether some setting names the point.
pub(crate) fn names(settings: &[Setting], point: usize) -> bool
    ensures { result ≡ names settings.now point }
{
    settings.iter().any(|x| x.point == point)
}

// The point that the i-th setting names, or 0.
fn named(settings: &[Setting], i: usize) -> usize
    ensures { result ≡ named settings.now i }
{
    settings.get(i).map_or(0, |x| x.point)
}

// Whether no setting before the k-th names its point.
fn first_named(settings: &[Setting], k: usize) -> bool
    ensures { result ≡ all_below (λ i. not (named settings.now i == named settings.now k)) k }
{
    (0..k).all(|i| named(settings, i) != named(settings, k))
}

// Whether no point is named twice.
pub(crate) fn once_each(settings: &[Setting]) -> bool
    ensures { result ≡ once_each settings.now }
{
    (0..settings.len()).all(|k| first_named(settings, k))
}

// Whether each setting is one of the others.
pub(crate) fn within(settings: &[Setting], others: &[Setting]) -> bool
    ensures { result ≡ within settings.now others.now }
{
    settings.iter().all(|x| others.contains(x))
}
