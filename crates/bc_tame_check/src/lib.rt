//! Decides whether sections are tame: whether no run of them with the library can meet a wild cell. A yes is proved.
#![tactic(auto)]

mod at;
mod binding;
mod bounds;
mod causes;
mod filling;
mod format;
mod held;
mod knows;
mod learning;
mod lookup;
mod not_tame;
mod rooms;
mod setters;
mod texts;
mod walk;

pub use not_tame::{BodyOf, Cause, NotTame, RoutineAt, Spot};
pub use rooms::{Rooms, tame_rooms};
