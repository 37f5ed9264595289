// Why a call is refused: the reasons of documents 01 and 02, each with the number that a clerk sees of it.
//
// No function has a `requires`, and none changes a byte.
#![tactic(auto)]

ghost use Rattle.std.specs.Prelude.{◌≡◌};
ghost use Rattle.refusals.specs.Numbers.{number_of};

// The rule that a call's input does not keep (document 01, "Numbers a clerk may see"; document 02).
#[derive(Clone, Copy, Debug, PartialEq, Eq)]
pub enum Reason {
    // The length is none of a flow, or of a record.
    WrongLength,
    // A byte is none of 32 to 126.
    BadByte,
    // The type is none that may come here.
    WrongType,
    // The flow ended where a record was due.
    Ended,
    // Not digits.
    NotDigits,
    // A value that is none of those permitted.
    NotPermitted,
    // An obligatory field is blank.
    Absent,
    // Digits, but no calendar date.
    NoSuchDay,
    // The number is not that of the disposition.
    WrongNumber,
    // It differs from the header.
    NotTheHeaders,
    // The company code is not that of the first record 14.
    OtherCompany,
    // The trailer's count of dispositions is wrong.
    WrongCount,
    // Its total is.
    WrongTotal,
    // Its count of records is.
    WrongRecords,
    // No disposition, or no line, has the number.
    NoDisposition,
    // The new amount is zero, or more than thirteen digits hold.
    NotAnAmount,
    // The total is more than the trailer's digits hold.
    TotalTooLarge,
    // The only disposition cannot be withdrawn.
    OnlyDisposition,
    // What stands in the list is no item.
    NoItem,
    // The output is too short.
    NoRoom,
    // The causale is that of the other kind of flow.
    OtherKind,
    // An amount of zero.
    ZeroAmount,
    // A flow that is compared has more than 256 requests.
    TooManyRequests,
    // The two flows are of different kinds.
    KindsDiffer,
    // The working memory is too short.
    WorkingMemory,
}

impl Reason {
    // The number of the reason.
    pub fn number(self) -> u64
        ensures { result ≡ number_of self }
    {
        match self {
            Reason::WrongLength => 1,
            Reason::BadByte => 2,
            Reason::WrongType => 3,
            Reason::Ended => 4,
            Reason::NotDigits => 5,
            Reason::NotPermitted => 6,
            Reason::Absent => 7,
            Reason::NoSuchDay => 8,
            Reason::WrongNumber => 9,
            Reason::NotTheHeaders => 10,
            Reason::OtherCompany => 11,
            Reason::WrongCount => 12,
            Reason::WrongTotal => 13,
            Reason::WrongRecords => 14,
            Reason::NoDisposition => 15,
            Reason::NotAnAmount => 16,
            Reason::TotalTooLarge => 17,
            Reason::OnlyDisposition => 18,
            Reason::NoItem => 20,
            Reason::NoRoom => 21,
            Reason::OtherKind => 22,
            Reason::ZeroAmount => 25,
            Reason::TooManyRequests => 27,
            Reason::KindsDiffer => 28,
            Reason::WorkingMemory => 34,
        }
    }
}
