//! Laws of the words of the command line, proved from the definitions alone.

ghost use Rattle.vc_words.specs.Laws.{OrderIsFree};

/// The options of a command may stand in any order.
pub fn order_is_free()
    ensures { OrderIsFree }
{}
