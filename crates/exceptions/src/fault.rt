// Why a table refuses an exception.
#[derive(Clone, Copy, Debug, PartialEq, Eq)]
pub enum TableFault {
    // the table holds as many as it can
    Full,
    // a number has more than 32 bits
    TooWide,
}
