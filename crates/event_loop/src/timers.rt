//! Timers.
ghost use Rattle.std.specs.Prelude.{◌≡◌, ◌<◌, ◌≤◌, ◌+◌, Some, None, nat_le, if◌then◌else◌, length, insert};
ghost use Rattle.arrayvec.specs.ArrayVec.{array_vec_len};
ghost use Rattle.event_loop.specs.Timers.{sooner, next_due, without_due, put_by_due, by_due, delay};

use arrayvec::ArrayVec;

/// A waiting timer: the cell of its function, and when it is due.
#[derive(Clone, Copy, Default, Drop)]
pub struct Timer {
    pub func: u32,
    pub at: u64,
}

// The sooner of two timers, the first at a tie.
fn sooner(one: Option<Timer>, other: Option<Timer>) -> Option<Timer>
    ensures { result ≡ sooner one other }
{
    let Some(first) = one else {
        return other;
    };
    let Some(second) = other else {
        return one;
    };
    if first.at <= second.at { one } else { other }
}

// A timer that is due by a limit.
fn due_by(timer: Timer, until: u64) -> Option<Timer>
    ensures { result ≡ (if nat_le timer.at until then Some timer else None) }
{
    if timer.at <= until { Some(timer) } else { None }
}

/// The timer with the least due time up to a limit, the first at a tie.
pub(crate) fn soonest(waiting: &[Timer], until: u64) -> Option<Timer>
    ensures { result ≡ next_due until waiting.now }
{
    let mut found = None;
    let mut place = waiting.len();
    'down: while place > 0 {
        place -= 1;
        found = sooner(due_by(waiting[place], until), found);
    }
    found
}

/// Takes out the first timer that is due then.
pub(crate) fn take_due(waiting: &mut Vec<Timer>, at: u64)
    ensures { waiting.new.items ≡ without_due at waiting.old.items }
{
    'each: for place in 0..waiting.len() {
        if waiting[place].at == at {
            waiting.remove(place);
            return;
        }
    }
}

/// How many milliseconds a timer waits.
pub(crate) fn delay(ms: i64) -> u64
    ensures { result ≡ delay ms }
{
    match u64::try_from(ms) {
        Ok(ms) => ms.max(10),
        Err(_) => 10,
    }
}

// Where a timer stands among others that were started later.
fn place_of(sorted: &[Timer], timer: Timer) -> usize
    ensures place { put_by_due timer sorted.now ≡ insert sorted.now result timer }
    ensures bound { result ≤ length sorted.now }
{
    let mut place = 0;
    'each: while place < sorted.len() && sorted[place].at < timer.at {
        place += 1;
    }
    place
}

// Puts a timer among others that were started later.
fn put_by_due(sorted: &mut ArrayVec<Timer, 64>, timer: Timer)
    requires { array_vec_len sorted.old < 64 }
    ensures items { sorted.new.items ≡ put_by_due timer sorted.old.items }
    ensures len { array_vec_len sorted.new ≡ array_vec_len sorted.old + 1 }
{
    let place = place_of(sorted.as_slice(), timer);
    sorted.insert(place, timer);
}

/// The timers by their due times, the earlier started first at a tie.
pub(crate) fn by_due(waiting: &[Timer]) -> ArrayVec<Timer, 64>
    requires { length waiting.now ≤ 64 }
    ensures { result.items ≡ by_due waiting.now }
{
    let mut sorted = ArrayVec::new();
    let mut place = waiting.len();
    'down: while place > 0 {
        place -= 1;
        put_by_due(&mut sorted, waiting[place]);
    }
    sorted
}
