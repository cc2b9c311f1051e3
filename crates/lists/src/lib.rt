// Dense lists, the position of a contact in its bucket's list, and why a call is refused.
#![tactic(auto)]

pub mod dense;
pub mod dense_list;
pub mod refusal;
pub mod solver_contact_graph;
