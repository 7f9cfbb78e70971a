// The kinds of records, by their names in cvinfo.h.
pub const LF_MODIFIER: u16 = 0x1001;

pub const LF_POINTER: u16 = 0x1002;

pub const LF_PROCEDURE: u16 = 0x1008;

pub const LF_MFUNCTION: u16 = 0x1009;

pub const LF_ARGLIST: u16 = 0x1201;

pub const LF_FIELDLIST: u16 = 0x1203;

pub const LF_BITFIELD: u16 = 0x1205;

pub const LF_METHODLIST: u16 = 0x1206;

pub const LF_ENUMERATE: u16 = 0x1502;

pub const LF_ARRAY: u16 = 0x1503;

pub const LF_CLASS: u16 = 0x1504;

pub const LF_STRUCTURE: u16 = 0x1505;

pub const LF_UNION: u16 = 0x1506;

pub const LF_ENUM: u16 = 0x1507;

pub const LF_INTERFACE: u16 = 0x1519;

pub const LF_FUNC_ID: u16 = 0x1601;

pub const LF_MFUNC_ID: u16 = 0x1602;

pub const LF_BUILDINFO: u16 = 0x1603;

pub const LF_SUBSTR_LIST: u16 = 0x1604;

pub const LF_STRING_ID: u16 = 0x1605;

pub const LF_UDT_SRC_LINE: u16 = 0x1606;

pub const LF_UDT_MOD_SRC_LINE: u16 = 0x1607;
