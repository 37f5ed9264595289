// The fixed contents of records, compared when a record is read and written when a list is encoded
// (document 01, "Language forms in the code"), and the positions of the amount and of the company code.
// What depends on the kind of flow is in `flow_kind`.

// The types, as they stand at 2-3; `type_of` gives them to other crates.
pub(crate) const TYPE_IM: [u8; 2] = *b"IM";

pub(crate) const TYPE_14: [u8; 2] = *b"14";

pub(crate) const TYPE_16: [u8; 2] = *b"16";

pub(crate) const TYPE_20: [u8; 2] = *b"20";

pub(crate) const TYPE_30: [u8; 2] = *b"30";

pub(crate) const TYPE_40: [u8; 2] = *b"40";

pub(crate) const TYPE_50: [u8; 2] = *b"50";

pub(crate) const TYPE_59: [u8; 2] = *b"59";

pub(crate) const TYPE_51: [u8; 2] = *b"51";

pub(crate) const TYPE_70: [u8; 2] = *b"70";

pub(crate) const TYPE_EF: [u8; 2] = *b"EF";

pub const CURRENCY: [u8; 1] = *b"E";

// The positions of the amount, in the record that opens a disposition.
pub const AMOUNT_FIRST: usize = 34;

pub const AMOUNT_LAST: usize = 46;

// And of the company code.
pub const COMPANY_FIRST: usize = 92;

pub const COMPANY_LAST: usize = 96;
