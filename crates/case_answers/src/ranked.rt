// Ranked lists of signals.
use crate::tell;
use record_vectors::ranked_lists::{BLANK, PLACES, SignalText, blank_list};
use records::survey::head;
use signals::{Signal, rank_signals};
use std::io;
use vectors::refusals::Refused;

// The list of a survey's signals, with so many places.
pub fn print(rt: &HostRuntime, places: u32, flags: u8, body: &[u8]) -> io::Result<()> {
    let mut list = blank_list(rt.alloc(), places)?;
    match rank_signals(body, flags, list.as_mut_slice()) {
        Ok(count) => {
            print!(rt; " {count}")?;
            print_places(rt, count, list.as_slice())?;
            println!(rt)
        }
        Err(fault) => {
            print_places(rt, 0, list.as_slice())?;
            tell(rt, Refused(fault.into()))
        }
    }
}

// PRN:SNR of the places that are used, and of each other place that is not as before the call.
fn print_places(rt: &HostRuntime, used: usize, list: &[Signal]) -> io::Result<()> {
    for (place, signal) in list.iter().enumerate() {
        if place < used || *signal != BLANK {
            let signal = SignalText(*signal);
            print!(rt; " {signal}")?;
        }
    }
    Ok(())
}

// The receive time of a survey, and its ranked list.
pub fn print_with_time(rt: &HostRuntime, flags: u8, body: &[u8]) -> io::Result<()> {
    let Ok(head) = head(body) else {
        return rt.println(" no head");
    };
    let time = head.receive_time;
    print!(rt; " {time:016X}")?;
    print(rt, PLACES, flags, body)
}
