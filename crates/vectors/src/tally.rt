// What the cases of a group came to.
#[derive(Drop)]
pub struct Tally<'a> {
    rt: &'a HostRuntime,
    group: &'static str,
    compared: u32,
    differing: u32,
}

impl<'a> Tally<'a> {
    pub fn new(rt: &'a HostRuntime, group: &'static str) -> Tally<'a> {
        Tally {
            rt,
            group,
            compared: 0,
            differing: 0,
        }
    }

    // Counts a case, and prints it where it differs.
    pub fn compare(&mut self, case: &str, want: &str, got: &str) -> anyhow::Result<()> {
        self.compared = self.compared.saturating_add(1);
        if want == got {
            return Ok(());
        }
        self.differs(case, want, got)
    }

    // Counts a case whose answer is lines, and prints the first line that differs.
    pub fn compare_lines(&mut self, case: &str, want: &str, got: &str) -> anyhow::Result<()> {
        self.compared = self.compared.saturating_add(1);
        if want == got {
            return Ok(());
        }
        let at = lines_alike(want, got);
        self.differs(case, line_at(want, at), line_at(got, at))
    }

    fn differs(&mut self, case: &str, want: &str, got: &str) -> anyhow::Result<()> {
        self.differing = self.differing.saturating_add(1);
        let group = self.group;
        println!(self.rt; "{group}: {case}: expected {want}, got {got}")?;
        Ok(())
    }

    pub fn print(&self) -> anyhow::Result<()> {
        let group = self.group;
        let compared = self.compared;
        let differing = self.differing;
        println!(self.rt; "{group}: {compared} compared, {differing} differ")?;
        Ok(())
    }
}

// How many lines at the front are the same.
fn lines_alike(a: &str, b: &str) -> usize {
    a.lines().zip(b.lines()).take_while(|(x, y)| x == y).count()
}

fn line_at(text: &str, at: usize) -> &str {
    text.lines().nth(at).unwrap_or("no more lines")
}
