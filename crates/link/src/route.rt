// A lawful packet on its way: to its scheme's collector, to the buffer, to the board.
ghost use Rattle.std.specs.Prelude.{◌≡◌, ℕ, ◌≤◌, length};
ghost use Rattle.joining.specs.Joining.{InRoom};
ghost use Rattle.reading.specs.Readings.{reading as reading_by};
ghost use Rattle.fixes.specs.Views.{board_of, enter};
ghost use Rattle.protocol.specs.Pulls.{put, board_with};
ghost use Rattle.link.specs.Faults.{reading_in};
ghost use Rattle.link.specs.Fixing.{fix_of};
ghost use Rattle.link.specs.Routes.{Joint, joint, Route, route};
ghost use Rattle.link.specs.Views.{answer_of};

use crate::answer::Answer;
use crate::fault::LinkFault;
use fixes::{Fix, FixBoard};
use joining::collector::{Collector, Step};
use packet::read::Packet;
use paging::scheme::Scheme;
use reading::read_report;
use records::kind::Kind;
use records::position;

// The length of the longest report.
pub(crate) const REPORT: usize = 8064;

fn copy(body: &[u8], buffer: &mut [u8; REPORT])
    requires { length body.now ≤ 8064 }
    ensures { buffer.new ≡ put body.now buffer.old }
{
    buffer[..body.len()].copy_from_slice(body);
}

// Reads a report, and puts a position that reads on the board.
fn deliver(kind: Option<Kind>, key: u32, body: &[u8], board: &mut FixBoard) -> Result<(), LinkFault>
    ensures answer { reading_in result ≡ reading_by kind key body.now }
    ensures board { board_of board.new ≡ board_with reading_by fix_of enter kind key body.now (board_of board.old) }
{
    if kind == Some(Kind::Position) {
        let fields = position::read(body)?;
        board.insert(Fix {
            key,
            time: fields.time,
            pdop: fields.pdop,
            satellites: fields.count,
        });
        return Ok(());
    }
    read_report(kind, key, body)?;
    Ok(())
}

// A page of a scheme.
fn join<S: Scheme>(
    to: &mut Collector<S>,
    board: &mut FixBoard,
    data: &[u8],
    buffer: &mut [u8; REPORT],
) -> Answer
    ensures page { record { answer = answer_of result; held = to.new.held; board = board_of board.new; buffer = buffer.new } ≡ joint reading_by fix_of enter S.Scheme.model «data».now to.old.held (board_of board.old) buffer.old }
    ensures room { InRoom to.new }
{
    match to.add(data) {
        Ok(Step::More(number, total)) => Answer::Page {
            kind: S::TYPE,
            number,
            total,
        },
        Ok(Step::Whole(key)) => {
            let body = to.report();
            copy(body, buffer);
            let reading = deliver(S::means(key), key, body, board);
            Answer::Report {
                kind: S::TYPE,
                key,
                len: body.len(),
                reading,
            }
        }
        Err(fault) => Answer::Refused(fault.into()),
    }
}

// A lawful packet, to the first scheme that claims its type.
pub(crate) fn send<A: Scheme, B: Scheme>(
    first: &mut Collector<A>,
    second: &mut Collector<B>,
    board: &mut FixBoard,
    packet: Packet<'_>,
    buffer: &mut [u8; REPORT],
) -> Answer
    requires size { length packet.data.now ≤ 255 }
    requires first_room { InRoom first.old }
    requires second_room { InRoom second.old }
    ensures packet { record { answer = answer_of result; first = first.new.held; second = second.new.held; board = board_of board.new; buffer = buffer.new } ≡ route A.Scheme.model B.Scheme.model reading_by fix_of enter first.old.held second.old.held (board_of board.old) (record { status = packet.entry.status; type = packet.entry.kind; content = packet.entry.data.now }) buffer.old }
    ensures first_room { InRoom first.new }
    ensures second_room { InRoom second.new }
{
    if packet.kind == A::TYPE {
        return join(first, board, packet.data, buffer);
    }
    if packet.kind == B::TYPE {
        return join(second, board, packet.data, buffer);
    }
    copy(packet.data, buffer);
    Answer::Other {
        status: packet.status,
        kind: packet.kind,
        len: packet.data.len(),
    }
}
