// The page schemes, by the packet types that stand for them in a case.
ghost use Rattle.std.specs.Prelude.{◌≡◌, ◌≢◌, length, IfOk, IfErr};
ghost use Rattle.paging.specs.RawDatas.{raw_data};
ghost use Rattle.paging.specs.AppFiles.{app_file};
ghost use Rattle.packet.specs.Writes.{put};
ghost use Rattle.paging.specs.Headers.{read_by};
ghost use Rattle.writing.specs.Writes.{written, report_sent};
ghost use Rattle.vectors.specs.Named.{model_of};

use anyhow::anyhow;
use packet::write::WriteFault;
use paging::app_file::AppFile;
use paging::fault::PageFault;
use paging::raw_data::RawData;
use paging::scheme::Scheme;
use records::kind::Kind;
use writing::write_report;

#[derive(Clone, Copy, Debug, PartialEq, Eq)]
pub enum PageScheme {
    RawData,
    AppFile,
}

impl TryFrom<u32> for PageScheme {
    type Error = anyhow::Error;

    ghost try_from_gives = { λ packet_type r. IfOk r (λ scheme. (model_of scheme).type ≡ packet_type) × IfErr r (λ _. (packet_type ≢ raw_data.type) × (packet_type ≢ app_file.type)) };

    fn try_from(packet_type: u32) -> anyhow::Result<PageScheme> {
        if packet_type == u32::from(RawData::TYPE) {
            return Ok(PageScheme::RawData);
        }
        if packet_type == u32::from(AppFile::TYPE) {
            return Ok(PageScheme::AppFile);
        }
        Err(anyhow!("no scheme has this type"))
    }
}

impl PageScheme {
    // The kind of report that a key means, if it means one.
    pub fn means(self, key: u32) -> Option<Kind>
        ensures { result ≡ (model_of self).means key }
    {
        match self {
            PageScheme::RawData => RawData::means(key),
            PageScheme::AppFile => AppFile::means(key),
        }
    }

    // The key, the page and the total of a header.
    pub fn read(self, data: &[u8]) -> Result<(u32, u16, u16), PageFault>
        ensures { result ≡ read_by (model_of self) «data».now }
    {
        match self {
            PageScheme::RawData => RawData::read(data),
            PageScheme::AppFile => AppFile::read(data),
        }
    }

    // A report written as packets.
    pub fn write(self, key: u32, report: &[u8], out: &mut [u8]) -> Result<usize, WriteFault>
        ensures answer { result ≡ report_sent (model_of self) key report.now (length out.old) }
        ensures bytes { out.new ≡ put result (written (model_of self) key report.now) out.old }
    {
        match self {
            PageScheme::RawData => write_report::<RawData>(key, report, out),
            PageScheme::AppFile => write_report::<AppFile>(key, report, out),
        }
    }
}
