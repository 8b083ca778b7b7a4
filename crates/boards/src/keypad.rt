// The keypad board.
use crate::door::Door;
use crate::row::Row;

// A board that keeps its numbers as they are.
pub type Keypad = Row<Door>;
