//! Values by timer.

ghost use Rattle.std.specs.Prelude.{◌≡◌};
ghost use Rattle.std.specs.Fn.{FnOnceReturnsAtMut, FnOnceTakesAtMut};
ghost use Rattle.timers.specs.ByTimers.{Each, EachGives, all_of, value_of, with_value};

use crate::timer::Timer;

/// A value for each timer.
#[derive(Clone, Copy, PartialEq, Eq, Debug)]
pub struct ByTimer<T> {
    pub tu3904: T,
    pub tu3906: T,
    pub tu3907: T,
    pub tu3908: T,
}

/// Which timers a tick brought to 0.
pub type Expired = ByTimer<bool>;

impl<T> ByTimer<T> {
    /// Calls a function at each timer's value, and gives what the calls answer.
    pub fn map_mut<U, F: Fn(&mut T) -> U>(&mut self, f: F) -> ByTimer<U>
        requires { Each (FnOnceTakesAtMut F.FnOnce f) self.old }
        ensures { EachGives (FnOnceReturnsAtMut F.FnOnce f) self.old result self.new }
    {
        ByTimer {
            tu3904: f(&mut self.tu3904),
            tu3906: f(&mut self.tu3906),
            tu3907: f(&mut self.tu3907),
            tu3908: f(&mut self.tu3908),
        }
    }
}

impl<T: Copy> ByTimer<T> {
    /// The same value for every timer.
    pub fn all(value: T) -> ByTimer<T>
        ensures { result ≡ all_of value }
    {
        ByTimer {
            tu3904: value,
            tu3906: value,
            tu3907: value,
            tu3908: value,
        }
    }

    /// The value of one timer.
    pub fn get(&self, timer: Timer) -> T
        ensures { result ≡ value_of self.now timer }
    {
        match timer {
            Timer::Tu3904 => self.tu3904,
            Timer::Tu3906 => self.tu3906,
            Timer::Tu3907 => self.tu3907,
            Timer::Tu3908 => self.tu3908,
        }
    }

    /// Gives one timer another value, and leaves the others.
    pub fn set(&mut self, timer: Timer, value: T)
        ensures { self.new ≡ with_value self.old timer value }
    {
        match timer {
            Timer::Tu3904 => self.tu3904 = value,
            Timer::Tu3906 => self.tu3906 = value,
            Timer::Tu3907 => self.tu3907 = value,
            Timer::Tu3908 => self.tu3908 = value,
        }
    }
}
