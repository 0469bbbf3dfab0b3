//! Which rise guard implies which, under the resilience condition.
#![tactic(auto)]

mod fault;
mod laws;
mod orders;
mod system;

pub use fault::OrderFault;
pub use laws::{guards_can_be_ordered, guards_come_after};
pub use orders::Orders;
pub use system::imply_system;
