// The wheel board.
use crate::row::Row;
use crate::wheel_door::WheelDoor;

// A board that keeps numbers on wheels.
pub type WheelBoard = Row<WheelDoor>;
