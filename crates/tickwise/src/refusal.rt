// What is refused, by number.

#[derive(Clone, Copy, PartialEq, Eq, Debug)]
pub enum Refusal {
    OutOfOrder = 2,
    OutOfRange = 5,
    WrongCount = 7,
    Open = 8,
    Unreached = 9,
    FewRecords = 10,
    WrongStarts = 11,
    NoSuchLine = 12,
    Past = 13,
    Late = 14,
    Unsettled = 15,
    Full = 16,
    Idle = 17,
    NoSuchChange = 18,
}

impl Refusal {
    pub fn number(self) -> u8 {
        self as u8
    }
}
