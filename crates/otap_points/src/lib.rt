//! The points of all shapes and their exemplars as rows: read, written and weighed, whatever they are points of.
#![tactic(auto)]

mod columns;
mod exemplars;
mod hist_points;
mod indexing;
mod number_lists;
mod number_points;
mod numbers;
mod summary_points;

pub use exemplars::{ExemplarWriter, Exemplars, HistPointExemplars, PointExemplars};
pub use hist_points::{HistPointWeights, HistPointWriter, HistPoints};
pub use indexing::{
    ExemplarRows, HistPointRows, PointRows, SumPointRows, find_hist_exemplars, find_hist_points,
    find_point_exemplars, find_points, find_summary_points,
};
pub use number_points::{PointWeights, PointWriter, Points};
pub use summary_points::{SumPointWeights, SumPointWriter, SumPoints};
