//! Runs: the words that a run is called with, its driver, its end, and the load that it may make itself.

pub(crate) mod drive;
pub(crate) mod ending;
pub(crate) mod filing;
pub(crate) mod handler;
pub(crate) mod laws;
pub(crate) mod load;
pub(crate) mod load_laws;
pub(crate) mod resending;
pub(crate) mod running;
pub(crate) mod selfrun;
pub(crate) mod stop;
pub(crate) mod unfiling;
pub(crate) mod words;
