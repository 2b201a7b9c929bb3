// The codes of the fields, by which a refusal names them.

pub(crate) const OBJS: u32 = 1;

pub(crate) const OBJ: u32 = 2;

pub(crate) const GUI: u32 = 3;

pub(crate) const MODEL: u32 = 4;

pub(crate) const SIM: u32 = 5;

pub(crate) const IN: u32 = 6;

pub(crate) const IN2: u32 = 7;

pub(crate) const INTYP: u32 = 8;

pub(crate) const OUT: u32 = 9;

pub(crate) const OUT2: u32 = 10;

pub(crate) const OUTTYP: u32 = 11;

pub(crate) const EVTIN: u32 = 12;

pub(crate) const EVTOUT: u32 = 13;

pub(crate) const DSTATE: u32 = 14;

pub(crate) const RPAR: u32 = 15;

pub(crate) const IPAR: u32 = 16;

pub(crate) const FIRING: u32 = 17;

pub(crate) const DEP_UT: u32 = 18;

pub(crate) const FROM: u32 = 19;

pub(crate) const TO: u32 = 20;

pub(crate) const CT: u32 = 21;
