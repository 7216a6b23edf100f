/// The registers of 32 bits, in the order of their numbers (Intel manual, volume 2, section 2.1.5).
#[derive(Clone, Copy, Debug, PartialEq, Eq)]
pub enum Reg32 {
    Eax,
    Ecx,
    Edx,
    Ebx,
    Esp,
    Ebp,
    Esi,
    Edi,
}

/// The registers of 8 bits, in the order of their numbers: the lowest bytes of the first four
/// registers of 32 bits, and then their second bytes (Intel manual, volume 1, section 3.4.1).
#[derive(Clone, Copy, Debug)]
pub enum Reg8 {
    Al,
    Cl,
    Dl,
    Bl,
    Ah,
    Ch,
    Dh,
    Bh,
}
