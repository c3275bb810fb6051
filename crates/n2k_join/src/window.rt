//! What ends an incomplete group.
ghost use Rattle.std.specs.Prelude.{◌≡◌, ◌↔◌, ◌+◌, nat_lt, true, false, IfSome, IsSome};
ghost use Rattle.n2k_join.specs.Window.{IsWindow};

use std::marker::Model;

/// What ends an incomplete group, besides a repeated frame number: its window, a number of lines from 32 to 1,000,000,
/// and, in order, a frame number that does not rise.
///
/// A group is broken that many lines after the line of its first frame, counting skipped and bad lines. In order, a
/// frame of its key also breaks it if the frame's number is not greater than each number in the group.
#[derive(Clone, Copy, Debug, PartialEq, Eq)]
pub struct Window {
    lines: u32,
    in_order: bool,
}

impl Model for Window {
    ghost use Rattle.n2k_join.specs.Window.{IsWindow, Window};

    ghost Value = { Window };

    ghost view = { λ w. record { lines = w.lines; in_order = w.in_order } };

    ghost invariant = { λ w. IsWindow w.lines };

    ghost inverse = { λ r. record { lines = r.lines; in_order = r.in_order } };
}

impl Window {
    /// The fewest lines of a window: the frames of the longest message fit, one a line.
    pub const SHORTEST: u32 = 32;

    /// The most lines of a window.
    pub const LONGEST: u32 = 1_000_000;

    /// A window of so many lines, with frame numbers in any order; `None` if out of range.
    ///
    /// ```rust
    /// let window = Window::new(10_000).unwrap();
    /// assert_eq!(rt; window.get(), 10_000);
    /// assert_eq!(rt; Window::new(31), None);
    /// ```
    pub fn new(lines: u32) -> Option<Window>
        ensures value { IfSome result (λ w. w ≡ record { lines = lines; in_order = false }) }
        ensures range { IsSome result ↔ IsWindow lines }
    {
        if lines < Window::SHORTEST || lines > Window::LONGEST {
            return None;
        }
        Some(Window {
            lines,
            in_order: false,
        })
    }

    /// The number of lines.
    ///
    /// ```rust
    /// let window = Window::new(10_000).unwrap();
    /// assert_eq!(rt; window.get(), 10_000);
    /// ```
    pub fn get(self) -> u32
        ensures value { result ≡ self.lines }
        ensures range { IsWindow self.lines }
    {
        self.lines
    }

    /// This window, in order: for a log in which the frames of each message come by rising number, as on a bus.
    ///
    /// ```rust
    /// let window = Window::new(10_000).unwrap();
    /// assert!(rt; !window.is_in_order());
    /// assert!(rt; window.in_order().is_in_order());
    /// ```
    pub fn in_order(self) -> Window
        ensures { result ≡ record { lines = self.lines; in_order = true } }
    {
        Window {
            lines: self.lines,
            in_order: true,
        }
    }

    /// Whether a frame number that does not rise ends a group.
    ///
    /// ```rust
    /// let window = Window::new(10_000).unwrap();
    /// assert!(rt; !window.is_in_order());
    /// assert!(rt; window.in_order().is_in_order());
    /// ```
    pub fn is_in_order(self) -> bool
        ensures { result ≡ self.in_order }
    {
        self.in_order
    }
}

/// Whether a window of so many lines, counted from line `first` on, ends after a line. The sum can't overflow.
pub(crate) fn is_waiting(first: u64, window: u64, line: u64) -> bool
    ensures { result ≡ nat_lt line (first + window) }
{
    u128::from(line) < u128::from(first) + u128::from(window)
}
