// What a page scheme makes of keys, headers and reports, as text.
ghost use Rattle.std.specs.Prelude.{◌≡◌};
ghost use Rattle.records.specs.Faults.{reading_of};
ghost use Rattle.reading.specs.Readings.{reading};
ghost use Rattle.vectors.specs.Named.{model_of};
ghost use Rattle.record_vectors.specs.Kinds.{kind_text};

use paging::fault::PageFault;
use reading::read_report;
use records::fault::RecordFault;
use records::kind::Kind;
use std::fmt;
use vectors::refusals::Refused;
use vectors::schemes::PageScheme;

// The kind that a scheme gives a key.
pub fn kind_name(scheme: PageScheme, key: u32) -> &'static str
    ensures { result.now ≡ kind_text ((model_of scheme).means key) }
{
    match scheme.means(key) {
        Some(Kind::Position) => "position",
        Some(Kind::Survey) => "survey",
        Some(Kind::Application) => "application",
        None => "none",
    }
}

// The reading that a pull gives with a report.
pub fn report_reading(scheme: PageScheme, key: u32, body: &[u8]) -> Result<(), RecordFault>
    ensures { reading_of result ≡ reading ((model_of scheme).means key) key body.now }
{
    read_report(scheme.means(key), key, body)
}

// KEY PAGE TOTAL, or the refusal.
#[derive(Clone, Copy, Debug, PartialEq, Eq)]
pub struct HeaderText(pub Result<(u32, u16, u16), PageFault>);

impl fmt::Display for HeaderText {
    fn fmt<W: fmt::Write>(&self, f: &mut fmt::Formatter<W>) -> fmt::Result {
        match self.0 {
            Ok((key, page, total)) => write!(f, "{key} {page} {total}"),
            Err(fault) => write!(f, "{}", Refused(fault.into())),
        }
    }
}
