// The operators by number. Those that take fewer than two values pass over the others. They stay numbers, and are no enum: a
// rule of the project says what each number does in every kind, also one above the highest, and an enum would take fewer.
pub type OperatorNumber = u8;

pub const MOVE: OperatorNumber = 0;

pub const LITERAL: OperatorNumber = 1;

pub const ARITH: OperatorNumber = 2;

pub const FIELD: OperatorNumber = 3;

pub const DETECTOR: OperatorNumber = 4;

pub const CLOCK: OperatorNumber = 5;

pub const CHECK: OperatorNumber = 6;

// A number above it gives bottom in every kind.
pub const HIGHEST: OperatorNumber = CHECK;
