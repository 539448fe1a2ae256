// The link itself.
ghost use Rattle.std.specs.Prelude.{◌≡◌, ℕ, ◌≤◌, [], length};
ghost use Rattle.joining.specs.Joining.{InRoom};
ghost use Rattle.reading.specs.Readings.{reading as reading_by};
ghost use Rattle.fixes.specs.Views.{enter, board_of};
ghost use Rattle.fixes.specs.Ranking.{leads};
ghost use Rattle.protocol.specs.Promises.{ReportSurvivesZeros, PagesStandWhole, BoardHoldsTheBest, RoomNeverRefuses};
ghost use Rattle.protocol.specs.Links.{fresh, forgotten, look};
ghost use Rattle.protocol.specs.Pulls.{Outcome, pull, pulled};
ghost use Rattle.protocol.specs.Runs.{EndsIdle};
ghost use Rattle.link.specs.Faults.{look_of};
ghost use Rattle.link.specs.Fixing.{fix_of};
ghost use Rattle.link.specs.Routes.{opened};

use crate::answer::Answer;
use crate::fault::LinkFault;
use crate::route::{REPORT, send};
use fixes::{Fix, FixBoard};
use held::HeldBytes;
use joining::collector::Collector;
use line::Line;
use packet::read::read;
use paging::scheme::Scheme;

const START: u8 = 2;

// No `impl Model`: seen through one, the board would be a list, and no longer known from its type to be in rank
// order and of at most 32 fixes; nor would it be known how much is held at most. So contracts see a link by
// `state_of`. They name the two schemes, the reading, the fix and the entering of a fix each time: a promise is over
// these, and a word for them would hide it.
#[derive(Drop)]
pub struct Link<A, B> {
    held: HeldBytes,
    in_step: bool,
    first: Collector<A>,
    second: Collector<B>,
    board: FixBoard,
    ghost held_within: { length held ≤ 522 },
    ghost first_within: { InRoom first },
    ghost second_within: { InRoom second },
}

impl<A: Scheme, B: Scheme> Link<A, B> {
    ghost use Rattle.link.specs.Views.{state_of, answer_of};

    // A new link. Whatever pulls, forgets and looks it then goes through: a report behind 257 zero bytes
    // is delivered; every report delivered has its pages whole among the bytes taken; the board holds the
    // best of the positions delivered and read; no page is refused for want of room.
    pub fn new() -> Link<A, B>
        ensures made { state_of result ≡ fresh }
        ensures report_survives_zeros { ReportSurvivesZeros A.Scheme.model B.Scheme.model reading_by fix_of enter }
        ensures pages_stand_whole { PagesStandWhole A.Scheme.model B.Scheme.model reading_by fix_of enter }
        ensures board_holds_the_best { BoardHoldsTheBest A.Scheme.model B.Scheme.model reading_by fix_of leads }
        ensures room_never_refuses { RoomNeverRefuses A.Scheme.model B.Scheme.model reading_by fix_of enter }
    {
        Link {
            held: HeldBytes::new(),
            in_step: true,
            first: Collector::new(),
            second: Collector::new(),
            board: FixBoard::new(),
        }
    }

    // Takes bytes until there is something to answer, and no more than the answer needs. A report, or the
    // data of a packet that no scheme claims, comes to the start of the buffer.
    pub fn pull<L: Line>(&mut self, line: &mut L, buffer: &mut [u8]) -> Answer
        ensures { record { answer = answer_of result; state = state_of self.new; waiting = L.Line.waiting line.new; buffer = buffer.new } ≡ pulled A.Scheme.model B.Scheme.model reading_by fix_of enter (state_of self.old) (L.Line.waiting line.old) buffer.old }
    {
        let room = buffer.len();
        let Some(start) = buffer.first_chunk_mut::<REPORT>() else {
            return Answer::Refused(LinkFault::Buffer(room));
        };
        let Some(b) = self.held.find(line, self.in_step) else {
            return Answer::Idle { held: 0 };
        };
        if b == START {
            return self.open(line, start);
        }
        self.held.pass(1);
        Answer::Signal { byte: b }
    }

    // Pulls until nothing more can be answered, and answers how many bytes are then held.
    pub fn pull_to_idle<L: Line>(&mut self, line: &mut L) -> usize
        ensures run { EndsIdle (pull A.Scheme.model B.Scheme.model reading_by fix_of enter) (state_of self.old) (L.Line.waiting line.old) (state_of self.new) result }
        ensures waiting { L.Line.waiting line.new ≡ [] }
    {
        let mut buffer = [0; REPORT];
        loop {
            if let Answer::Idle { held } = self.pull(line, &mut buffer) {
                return held;
            }
        }
    }

    // Drops the held bytes and the pages of both schemes, and sets the link in step; the board stays.
    pub fn forget(&mut self)
        ensures { state_of self.new ≡ forgotten (state_of self.old) }
    {
        self.held.clear();
        self.in_step = true;
        self.first.drop_pages();
        self.second.drop_pages();
    }

    // The fix at a rank counted from 1.
    pub fn look(&self, rank: usize) -> Result<Fix, LinkFault>
        ensures { look_of result ≡ look rank (board_of self.now.board) }
    {
        let Some(fix) = self.board.at(rank) else {
            return Err(LinkFault::Rank(rank));
        };
        Ok(fix)
    }

    // The packet that the stream begins with.
    fn open<L: Line>(&mut self, line: &mut L, buffer: &mut [u8; REPORT]) -> Answer
        ensures { record { answer = answer_of result; state = state_of self.new; waiting = L.Line.waiting line.new; buffer = buffer.new } ≡ opened A.Scheme.model B.Scheme.model reading_by fix_of enter (state_of self.old) (L.Line.waiting line.old) buffer.old }
    {
        let Link {
            held,
            in_step,
            first,
            second,
            board,
        } = self;
        held.gather(line);
        let Some(found) = read(held.all()) else {
            return Answer::Idle { held: held.len() };
        };
        match found {
            Err(fault) => {
                held.pass(1);
                *in_step = false;
                Answer::Refused(fault.into())
            }
            Ok(packet) => {
                let size = packet.data.len() + 6;
                let answer = send(first, second, board, packet, buffer);
                held.pass(size);
                *in_step = true;
                answer
            }
        }
    }
}
