//! Laws of definitions.

ghost use Rattle.mk_macros.specs.Laws.{OperandsFix, OperandsLeaveOthers, OperandsWin, AppendingToNothing, AppendingToDelayed, AppendingToImmediate};

/// An operand fixes the macro that it sets.
pub fn operands_fix()
    ensures { OperandsFix }
{}

/// An operand changes no other macro than the one that it sets.
pub fn operands_leave_others()
    ensures { OperandsLeaveOthers }
{}

/// A macro that an operand has fixed isn't changed by any later definition of its name.
pub fn operands_win()
    ensures { OperandsWin }
{}

/// `+=` on an undefined macro acts as `=`.
pub fn appending_to_nothing()
    ensures { AppendingToNothing }
{}

/// `+=` on a delayed macro appends a space and the text.
pub fn appending_to_delayed()
    ensures { AppendingToDelayed }
{}

/// `+=` on an immediate macro appends a space and the expansion of the text.
pub fn appending_to_immediate()
    ensures { AppendingToImmediate }
{}
