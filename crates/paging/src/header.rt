// The header of a page.
ghost use Rattle.std.specs.Prelude.{◌+◌, ◌<◌, ◌^◌};
ghost use Rattle.std.specs.Option.{SomeIff};

// The report's key, the page's number from 1 on, and the number of its pages.
#[derive(Clone, Copy, Debug, PartialEq, Eq)]
pub struct Header {
    pub key: u32,
    pub page: u16,
    pub total: u16,
}

impl Header {
    // The header of the page behind this one, of the same report.
    pub fn next(self) -> Option<Header>
        ensures { SomeIff result (self.page + 1 < 2 ^ 16) (record { key = self.key; page = self.page + 1; total = self.total }) }
    {
        let page = self.page.checked_add(1)?;
        Some(Header { page, ..self })
    }
}
