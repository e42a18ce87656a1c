//! Moments, in seconds since 1970-01-01 UTC.
ghost use Rattle.std.specs.Prelude.{◌≡◌, ℕ, List, Option, Some, None};
ghost use Rattle.app_wire.specs.Moments.{Tick};

use std::marker::Model;
use std::time::{SystemTime, UNIX_EPOCH};

/// A clock. Where told, its meaning is the list of the moments that it will give; the last one
/// repeats, and an empty list gives 0.
pub trait Clock {
    ghost told: { Self → Option (List ℕ) };

    /// The moment, in seconds since 1970-01-01 UTC.
    fn now(&mut self) -> u64
        ensures { Tick result (told self.old) (told self.new) };
}

/// A clock of listed moments.
#[derive(Drop)]
pub struct ListClock {
    moments: Vec<u64>,
}

impl Model for ListClock {
    ghost Value = { List ℕ };

    ghost view = { λ c. c.moments.items };
}

impl ListClock {
    /// A clock that gives these moments, of which the last repeats; 0 where there is none.
    pub fn new(moments: Vec<u64>) -> ListClock
        ensures { result ≡ moments.items }
    {
        ListClock { moments }
    }
}

impl Clock for ListClock {
    ghost told = { λ c. Some c };

    fn now(&mut self) -> u64 {
        match self.moments.len() {
            0 => 0,
            1 => self.moments[0],
            _ => self.moments.remove(0),
        }
    }
}

/// The system's clock. Where the system gives no moment it repeats its last one, at first 0. It is
/// seen as that one.
#[derive(Drop)]
pub struct SystemClock<R> {
    runtime: R,
    last: u64,
}

impl<R> Model for SystemClock<R> {
    ghost use Rattle.std.specs.Prelude.{ℕ};

    ghost Value = { ℕ };

    ghost view = { λ c. c.last };
}

impl<R> SystemClock<R> {
    /// A clock over the runtime, which has given no moment.
    pub fn new(runtime: R) -> SystemClock<R>
        ensures { result ≡ 0 }
    {
        SystemClock { runtime, last: 0 }
    }
}

impl<R: std::rt::Clock> Clock for SystemClock<R> {
    ghost told = { λ c. None };

    fn now(&mut self) -> u64
        ensures tick { Tick result None None }
        ensures last { result ≡ self.new }
    {
        if let Ok(moment) = SystemTime::now(&self.runtime)
            && let Ok(since) = moment.duration_since(UNIX_EPOCH)
        {
            self.last = since.as_secs();
        }
        self.last
    }
}
