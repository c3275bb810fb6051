//! The options of a run.
ghost use Rattle.n2k_join.specs.Window.{IsWindow};

use n2k_join::Window;
use n2k_wire::Packing;

/// How a log's lines are read, how long a group may wait for its frames, and how messages are printed.
#[derive(Clone, Copy, Debug, PartialEq, Eq)]
pub struct Options {
    /// How the data of its lines are packed.
    pub packing: Packing,
    /// Whether an absent field is printed, as `null`.
    pub empty: bool,
    /// What ends an incomplete group: that many lines since its first and, in order, a frame whose number doesn't rise.
    pub window: Window,
}

/// The type guarantees a valid window.
pub(crate) fn lemma_window_valid(options: &Options)
    ensures { IsWindow options.now.window.lines }
{
    let _lines = options.window.get();
}
