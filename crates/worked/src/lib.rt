// Worked cases, proved as one group over the definitions that the code's contracts cite.
#![tactic(auto)]

ghost use Rattle.worked.specs.Worked.{WorkedCases};

// That every worked case comes out as it is written down.
pub fn worked_cases_hold() -> u8
    ensures { WorkedCases }
{
    0
}
