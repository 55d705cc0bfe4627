//! Laws of the printed lines, proved from the definitions alone: a text of printed lines can be cut into
//! lines again, and each line of a slot is known by its number.

ghost use Rattle.vc_script.specs.OneLine.{RepliesAreLines, ClaimsAreLines, FinishesAreLines, NumbersAreDigits, NumbersAreWords, NumbersDiffer, WantIsTold};

/// The answer to a call, whatever it is, is one line that begins with the slot's number and a space.
pub fn replies_are_lines()
    ensures { RepliesAreLines }
{}

/// So is the line of a claim that took a slot.
pub fn claims_are_lines()
    ensures { ClaimsAreLines }
{}

/// And the line of a finish, with any word that has no line feed.
pub fn finishes_are_lines()
    ensures { FinishesAreLines }
{}

/// The number of a slot has digits alone: no space, no line feed and no minus sign.
pub fn numbers_are_digits()
    ensures { NumbersAreDigits }
{}

/// The number of a slot isn't empty.
pub fn numbers_are_words()
    ensures { NumbersAreWords }
{}

/// Different slots have different numbers.
pub fn numbers_differ()
    ensures { NumbersDiffer }
{}

/// A call's line says ENOMEM only where the reply does.
pub fn want_is_told()
    ensures { WantIsTold }
{}
