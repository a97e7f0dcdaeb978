//! The rules of the analysis: what may point to what, which definitions reach which points, the sets of reads, the classes of definitions,
//! reads that may go unchecked, and accepted modules. `specs/` has the rules. They say what they should of code of a good form alone.
#![tactic(auto)]

mod calls;
mod closure;
mod cover;
mod fact_list;
mod flows;
mod found;
mod joins;
mod kills;
mod law;
mod leaves;
mod mhp;
mod nodes;
mod places;
mod point_rules;
mod points;
mod reads;
mod rows;
mod rule;
mod table;

pub use closure::closed;
pub use cover::elided;
pub use fact_list::facts;
pub use found::set_has;
pub use law::{built_is_accepted, facts_are_touched, points_are_least, reach_is_least};
pub use leaves::shape_of_node;
pub use mhp::Mhp;
pub use nodes::{part_node, place_node, site_node};
pub use rule::{Broken, FactsFault, Rule};
pub use table::reach_of;
