//! What may be wrong with the rows of a batch, and the rows with their ids.
#![tactic(auto)]

mod cells;
mod checking;
mod fronts;
mod indexing;
mod known;
pub mod laws;
mod measured;
mod pairs;
mod regrouping;
mod shapes;
mod signals;
mod values;
pub mod written_laws;

pub use cells::{check_cells, checked_rows};
pub use checking::{known_ids, known_rows, refused};
pub use fronts::front_of;
pub use indexing::index_rows;
pub use known::{ColumnIds, KnownIds, KnownRows, PairWeights};
pub use measured::{has_two_values, has_uneven_lists};
pub use pairs::{PairRows, find_pairs};
pub use regrouping::{Grouped, RegroupRefusal, groups_within};
pub use shapes::{PointSort, has_other_parents, has_wrong_type};
pub use signals::{Asks, CellRule, Parents, TableLink, item_attributes, links_of, rules_of};
pub use values::check_values;
