//! Laws of the output of scripts and of the sharing, proved from the definitions alone.

ghost use Rattle.vc_model.specs.Script.{IsLineText};
ghost use Rattle.vc_script.specs.Texts.{reply_text};
ghost use Rattle.vc_top.specs.Shares.{ShareLinesAreDefined};
ghost use Rattle.vc_top.specs.Slots.{FinishLinesAreCounted, LinesAsk, OwnLines, SameLines, ScriptIsHonest, TextsAreOne};

/// The answer to each call is one line of its slot, and no line of a finish.
pub fn answers_are_lines()
    ensures { IsLineText reply_text }
{}

/// The lines of a slot are what the slot is told by itself, whatever the script does on other slots: two scripts in which
/// the same happens to it print the same lines of it.
pub fn slots_print_their_own()
    ensures own { OwnLines }
    ensures same { SameLines }
{}

/// What the lines of a script ask for can be asked, so each slot's events in it are honest.
pub fn scripts_are_honest()
    ensures asked { LinesAsk }
    ensures honest { ScriptIsHonest }
{}

/// The lines that finishes print are as many as the jobs that ended, with a fault and without.
pub fn finish_lines_are_counted()
    ensures { FinishLinesAreCounted }
{}

/// The texts of claims and finishes in the model of scripts are those that are printed.
pub fn texts_are_one()
    ensures { TextsAreOne }
{}

/// The lines that the sharing writes, for options that words can ask for, are its defined output.
pub fn share_lines_are_defined()
    ensures { ShareLinesAreDefined }
{}
