// The pages held of one scheme, written once for every scheme.
ghost use Rattle.std.specs.Prelude.{◌≡◌, ◌≤◌, IfOk, [], length, ◌≢◌};
ghost use Rattle.joining.specs.Joining.{Collection, InRoom, collected, next_page, no_pages};
ghost use Rattle.joining.specs.Views.{held_by, joined_of, told_by, Emptied};

use crate::store::Store;
use paging::fault::PageFault;
use paging::header::Header;
use paging::scheme::Scheme;
use std::marker::{Model, PhantomData};

#[derive(Clone, Copy, Debug, PartialEq, Eq)]
pub enum Step {
    // More pages follow this one: its number, and its report's total.
    More(u16, u16),
    // The report is whole: its key.
    Whole(u32),
}

#[derive(Drop)]
pub struct Collector<S> {
    store: Store,
    // The header of the last page held, if any is.
    last: Option<Header>,
    of: PhantomData<S>,
}

// Contracts see the pages held and the bytes in the store.
impl<S> Model for Collector<S> {
    ghost Value = { Collection };

    ghost view = { λ c. record { held = held_by c.last c.store; bytes = c.store } };
}

impl<S: Scheme> Collector<S> {
    pub fn new() -> Collector<S>
        ensures held { result.held ≡ no_pages }
        ensures bytes { result.bytes ≡ [] }
    {
        Collector {
            store: Store::new(),
            last: None,
            of: PhantomData,
        }
    }

    // Drops the pages held.
    pub fn drop_pages(&mut self)
        ensures held { self.new.held ≡ no_pages }
        ensures bytes { self.new.bytes ≡ [] }
    {
        self.store.clear();
        self.last = None;
    }

    // Whether a page that begins no report comes behind those held.
    fn follows(&self, header: Header) -> bool
        requires { header.page ≢ 1 }
        ensures { result ≡ next_page header self.now.held }
    {
        self.last.and_then(Header::next) == Some(header)
    }

    // Joins a page to those held, which a refusal leaves to be dropped.
    fn join(&mut self, data: &[u8]) -> Result<Step, PageFault>
        ensures page { told_by result self.new.bytes self.new.held ≡ collected S.Scheme.model «data».now self.old.held }
        ensures room { IfOk result (λ step. InRoom self.new) }
    {
        let (key, page, total) = S::read(data)?;
        let header = Header { key, page, total };
        let out_of_turn = PageFault::OutOfTurn(page as usize);
        if page == 1 {
            self.drop_pages();
        } else if !self.follows(header) {
            return Err(out_of_turn);
        }
        self.store.add(&data[S::HEADER..]).ok_or(out_of_turn)?;
        if page == total {
            self.last = None;
            return Ok(Step::Whole(key));
        }
        self.last = Some(header);
        Ok(Step::More(page, total))
    }

    // Joins a page to those held, or drops them with it. A whole report stays in the store until the next
    // page comes.
    pub fn add(&mut self, data: &[u8]) -> Result<Step, PageFault>
        ensures page { record { joined = joined_of result self.new.bytes; held = self.new.held } ≡ collected S.Scheme.model «data».now self.old.held }
        ensures refused { Emptied result self.new.bytes }
        ensures room { InRoom self.new }
    {
        let joined = self.join(data);
        if joined.is_err() {
            self.drop_pages();
        }
        joined
    }

    // The bytes in the store: behind a whole report that report, behind a refused page none.
    pub fn report(&self) -> &[u8]
        ensures value { result.now ≡ self.now.bytes }
        ensures len { length result.now ≤ 8064 }
        ensures room { InRoom self.now }
    {
        self.store.bytes()
    }
}
