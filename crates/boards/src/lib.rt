// A row of doors, each with a number in force and perhaps a staged one: what
// any such board does, and two boards that do it in their own ways.
#![tactic(auto)]

pub mod board;
pub mod door;
mod door_kind;
pub mod keypad;
pub mod keypad_calls;
mod row;
mod row_calls;
mod wheel;
pub mod wheel_board;
pub mod wheel_calls;
pub mod wheel_door;
