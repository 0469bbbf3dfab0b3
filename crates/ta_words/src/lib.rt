//! Schemas (words) of events and guard switches, their children, and the rules that are allowed
//! after them.
//!
//! A word lists what a condition can observe along a run, in order: a rise guard turns true, some
//! fall guards turn false in one step, an event happens. Each guard switches at most once, so a
//! word has at most 30 elements: 8 events, 16 rise guards, 6 fall guards.
//!
//! Source: POPL 2017, schemas; sets of fall guards that one step turns are this project's.
#![tactic(auto)]

mod child_list;
mod element;
mod following;
mod narrow_task;
mod seen;
mod word;

pub use child_list::Children;
pub use element::Element;
pub use following::{
    allowed_after, allowed_rules, children, fallen_after, is_complete, is_unlocked, risen_after,
};
pub use narrow_task::NarrowTask;
pub use word::Word;
