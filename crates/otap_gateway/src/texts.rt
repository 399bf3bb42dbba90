//! What the jobs print: lines, cells, and the names of causes. Nothing here knows of a job.

pub(crate) mod causes;
pub(crate) mod fields;
pub(crate) mod ipc_causes;
pub(crate) mod lines;
pub(crate) mod numbers;
pub(crate) mod quoting;
pub(crate) mod row_causes;
pub(crate) mod rows;
