// The cases of ranks.txt: the rank keys and thousandths of DOUBLE patterns.
use fixes::double::{rank_key, thousandths};
use std::{fmt, fs};
use vectors::tally::Tally;
use vectors::words::{Words, is_remark};

// A DOUBLE's bits, shown as its rank key and its thousandths.
#[derive(Clone, Copy, Debug, PartialEq, Eq)]
pub struct DoubleText(pub u64);

impl fmt::Display for DoubleText {
    fn fmt<W: fmt::Write>(&self, f: &mut fmt::Formatter<W>) -> fmt::Result {
        let key = rank_key(self.0);
        let thousandths = thousandths(self.0);
        write!(f, "{key} {thousandths}")
    }
}

// A line is the bits, the rank key and the thousandths; what stands behind them is a remark.
pub fn run(rt: &HostRuntime) -> anyhow::Result<()> {
    let mut tally = Tally::new(rt, "ranks");
    let text = fs::read_to_string(rt, "ranks.txt")?;
    for line in text.as_str().lines().filter(|line| !is_remark(line)) {
        let mut words = Words::of(rt.alloc(), line);
        let got = DoubleText(words.bits()?);
        let key = words.word()?;
        let thousandths = words.word()?;
        let want = format!(in rt.alloc(); "{key} {thousandths}")?;
        tally.compare(line, want.as_str(), words.text(got)?.as_str())?;
    }
    tally.print()
}
