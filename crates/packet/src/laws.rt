// What is written reads back, and what was read is written as it was.
ghost use Rattle.packet.specs.Laws.{LawfulPacketRewritesItself, WrittenPacketReadsBack};

// A lawful packet, written again, is the bytes that it was read from.
pub fn lawful_packet_rewrites_itself() -> u8
    ensures { LawfulPacketRewritesItself }
{
    0
}

// A written packet reads back as the same packet.
pub fn written_packet_reads_back() -> u8
    ensures { WrittenPacketReadsBack }
{
    0
}
