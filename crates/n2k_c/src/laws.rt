//! Promises that belong to no single call.
ghost use Rattle.std.specs.Thread.{IsSend};
ghost use Rattle.n2k_c.specs.contracts.Handle.{the_row as handle};

/// A handle may go to another thread, with all that it owns: no call depends on the thread that opened the decoder.
pub fn handles_cross_threads()
    ensures { IsSend handle }
{}
