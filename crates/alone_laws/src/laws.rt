//! One session alone.
ghost use Rattle.alone_laws.specs.Laws.{AloneIsOneThread};

/// A legal record of one session that lost no path has the text of one thread that runs the session from the LOAD rows.
pub fn alone_is_one_thread()
    ensures { AloneIsOneThread }
{}
