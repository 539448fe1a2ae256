// The rules of a pull over lists of bytes, and what follows from them for every history of a link.
//
// This crate has definitions and proofs, and no code that runs: the contracts of the link are stated
// over `specs/`, and the promises below are theorems over the same definitions, for every two page
// schemes with their laws, every reading of reports and every order of fixes.
#![tactic(auto)]

ghost use Rattle.protocol.specs.Promises.{ReportSurvivesZeros, PagesStandWhole, BoardHoldsTheBest, RoomNeverRefuses, ForLawfulSchemes, ForOrders};
ghost use Rattle.protocol.specs.Written.{WrittenReportComesBack};

// A report behind 257 zero bytes is delivered byte for byte.
pub fn report_survives_zeros() -> u8
    ensures { ForLawfulSchemes ReportSurvivesZeros }
{
    0
}

// Every report delivered has its pages whole and in order among the bytes taken.
pub fn pages_stand_whole() -> u8
    ensures { ForLawfulSchemes PagesStandWhole }
{
    0
}

// The board holds exactly the 32 best of the positions delivered and read.
pub fn board_holds_the_best() -> u8
    ensures { ForOrders BoardHoldsTheBest }
{
    0
}

// In no history is a page refused for want of room.
pub fn room_never_refuses() -> u8
    ensures { ForLawfulSchemes RoomNeverRefuses }
{
    0
}

// What the page writer writes is pulled back by a new link as the same report with the same key.
pub fn written_report_comes_back() -> u8
    ensures { ForLawfulSchemes WrittenReportComesBack }
{
    0
}
