// Application files: block number, page index from 0, greatest page index.
ghost use Rattle.std.specs.Prelude.{refl};
ghost use Rattle.paging.specs.AppFiles.{app_file};
ghost use Rattle.paging.specs.AppLaws;

use crate::fault::PageFault;
use crate::header::Header;
use crate::scheme::Scheme;
use records::kind::Kind;

#[derive(Drop)]
pub struct AppFile;

impl Scheme for AppFile {
    const TYPE: u8 = 0x64;

    const HEADER: usize = 3;

    const PAGES: u16 = 32;

    const KEYS: u64 = 256;

    ghost TYPE = { app_file.type };

    ghost HEADER = { app_file.header };

    ghost PAGES = { app_file.pages };

    ghost KEYS = { app_file.keys };

    ghost model = { app_file };

    ghost type_is = { refl };

    ghost header_is = { refl };

    ghost pages_is = { refl };

    ghost keys_is = { refl };

    ghost lawful = { AppLaws.lawful };

    fn read(data: &[u8]) -> Result<(u32, u16, u16), PageFault> {
        let [block, index, greatest, ..] = *data else {
            return Err(PageFault::Short(data.len()));
        };
        if index > greatest || greatest > 31 {
            return Err(PageFault::Unfit(2));
        }
        Ok((
            u32::from(block),
            u16::from(index) + 1,
            u16::from(greatest) + 1,
        ))
    }

    fn write(header: Header, out: &mut [u8]) -> bool {
        if !Self::fits(header, out.len()) {
            return false;
        }
        let Header { key, page, total } = header;
        out[0] = key as u8;
        out[1] = (page - 1) as u8;
        out[2] = (total - 1) as u8;
        true
    }

    fn means(_key: u32) -> Option<Kind> {
        Some(Kind::Application)
    }
}
