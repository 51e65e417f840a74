//! The first and the last place at which a text stands, by its borders.
ghost use Rattle.std.specs.Prelude.{◌≡◌, ◌+◌, ◌≤◌, ◌<◌, length};
ghost use Rattle.text_search.specs.Borders.{Agrees, AreBorders};
ghost use Rattle.text_search.specs.Places.{IsFirst, IsLast};

/// The first place at or after one at which `x` stands in `t`, where so many of its units are known
/// to agree with those there.
pub(crate) fn first_from(
    t: &[u16],
    x: &[u16],
    borders: &[usize],
    from: usize,
    known: usize,
) -> Option<usize>
    requires all { length borders.now ≡ length x.now }
    requires borders { AreBorders x.now borders.now }
    requires fits { (known ≤ length x.now) × (from + known ≤ length t.now) }
    requires known { Agrees x.now t.now from known }
    ensures { IsFirst t.now x.now from result }
{
    let mut place = from;
    let mut agreed = known;
    while agreed < x.len() {
        if place + agreed == t.len() {
            return None;
        }
        if x[agreed] == t[place + agreed] {
            agreed += 1;
        } else if agreed == 0 {
            place += 1;
        } else {
            let border = borders[agreed - 1];
            place += agreed - border;
            agreed = border;
        }
    }
    Some(place)
}

/// The last place at or before one at which `x`, which is not empty, stands in `t`.
pub(crate) fn last_to(t: &[u16], x: &[u16], borders: &[usize], to: usize) -> Option<usize>
    requires some { 0 < length x.now }
    requires all { length borders.now ≡ length x.now }
    requires borders { AreBorders x.now borders.now }
    requires inside { to ≤ length t.now }
    ensures { IsLast t.now x.now to result }
{
    let mut last = None;
    let mut place = 0;
    let mut agreed = 0;
    while let Some(next) = first_from(t, x, borders, place, agreed) {
        if next > to {
            return last;
        }
        last = Some(next);
        agreed = borders[x.len() - 1];
        place = next + (x.len() - agreed);
    }
    last
}
