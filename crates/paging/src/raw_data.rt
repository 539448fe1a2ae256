// RAWDATA: record type, paging byte, reply number, interpretation flags.
ghost use Rattle.std.specs.Prelude.{refl};
ghost use Rattle.paging.specs.RawDatas.{raw_data};
ghost use Rattle.paging.specs.RawLaws;

use crate::fault::PageFault;
use crate::header::Header;
use crate::scheme::Scheme;
use records::kind::Kind;

#[derive(Drop)]
pub struct RawData;

impl Scheme for RawData {
    const TYPE: u8 = 0x57;

    const HEADER: usize = 4;

    const PAGES: u16 = 15;

    const KEYS: u64 = 16777216;

    ghost TYPE = { raw_data.type };

    ghost HEADER = { raw_data.header };

    ghost PAGES = { raw_data.pages };

    ghost KEYS = { raw_data.keys };

    ghost model = { raw_data };

    ghost type_is = { refl };

    ghost header_is = { refl };

    ghost pages_is = { refl };

    ghost keys_is = { refl };

    ghost lawful = { RawLaws.lawful };

    fn read(data: &[u8]) -> Result<(u32, u16, u16), PageFault> {
        let [record, paging, reply, flags, ..] = *data else {
            return Err(PageFault::Short(data.len()));
        };
        let page = u16::from(paging / 16);
        let total = u16::from(paging % 16);
        if page == 0 || page > total {
            return Err(PageFault::Unfit(1));
        }
        Ok((u32::from_be_bytes([0, record, reply, flags]), page, total))
    }

    fn write(header: Header, out: &mut [u8]) -> bool {
        if !Self::fits(header, out.len()) {
            return false;
        }
        let Header { key, page, total } = header;
        let [_, record, reply, flags] = key.to_be_bytes();
        out[0] = record;
        out[1] = (page * 16 + total) as u8;
        out[2] = reply;
        out[3] = flags;
        true
    }

    fn means(key: u32) -> Option<Kind> {
        match key / 65536 {
            0 if key % 2 == 1 => Some(Kind::Survey),
            1 => Some(Kind::Position),
            _ => None,
        }
    }
}
