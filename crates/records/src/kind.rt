// What kind of report a key means, where it means one.
#[derive(Clone, Copy, Debug, PartialEq, Eq)]
pub enum Kind {
    Position,
    Survey,
    Application,
}
