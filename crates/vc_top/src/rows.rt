//! Worked scripts: what the grammar, the device and the texts make of short scripts.

ghost use Rattle.vc_top.specs.Rows.{FirstScriptAsks, FirstScriptPrints, RunningScriptAsks, RunningScriptPrints, ThirdOfTwoIsBad, TwoSlotsAsk, TwoSlotsPrint};

/// The definitions compute these scripts whole, from their text to what they print.
pub fn script_rows()
    ensures first_asks { FirstScriptAsks }
    ensures first_prints { FirstScriptPrints }
    ensures running_asks { RunningScriptAsks }
    ensures running_prints { RunningScriptPrints }
    ensures two_slots_ask { TwoSlotsAsk }
    ensures two_slots_print { TwoSlotsPrint }
    ensures third_is_bad { ThirdOfTwoIsBad }
{}
