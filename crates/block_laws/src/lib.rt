// Laws of the blocks over whole rows of scans, and the sums that the rules are held to.
// Each function's contract is the law; its proof stands in `proofs/`.
#![tactic(auto)]

ghost use Rattle.block_laws.specs.Agreement.{WindowsAgree};
ghost use Rattle.block_laws.specs.Delays.{DelaysHold};
ghost use Rattle.block_laws.specs.Rises.{PulsesHold, CountsHold};
ghost use Rattle.block_laws.specs.Sums.{SumsHold};

// ESV is 1 exactly when T has been 1 for the rounded delay; MOA until then.
pub fn delays_hold() -> u8
    ensures { DelaysHold }
{
    0
}

// I+ gives one pulse for each rise.
pub fn pulses_hold() -> u8
    ensures { PulsesHold }
{
    0
}

// CTUD that is only counted up tells the number of rises.
pub fn counts_hold() -> u8
    ensures { CountsHold }
{
    0
}

// A block knows no cell but those of its window.
pub fn windows_agree() -> u8
    ensures { WindowsAgree }
{
    0
}

pub fn sums_hold() -> u8
    ensures { SumsHold }
{
    0
}
