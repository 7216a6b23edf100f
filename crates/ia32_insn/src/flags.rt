/// The flags CF, ZF, SF and OF (Intel manual, volume 1, section 3.4.3).
#[derive(Clone, Copy, Debug, PartialEq, Eq)]
pub struct Flags {
    pub cf: bool,
    pub zf: bool,
    pub sf: bool,
    pub of: bool,
}
