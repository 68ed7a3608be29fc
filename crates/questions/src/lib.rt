// What the questions ask of a list, in plain words, and that the rules ask the same.
#![tactic(auto)]

ghost use Rattle.questions.specs.Agreement.{RulesAgree};

// Of every list each rule finds no fault exactly when its question gets a yes.
pub fn rules_agree() -> u8
    ensures { RulesAgree }
{
    0
}
