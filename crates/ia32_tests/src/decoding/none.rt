/// No spelling of this compiler's part of IA-32 begins these bytes: behind each semicolon stands why.
pub const ROWS: &str = "\
; no byte
0F ; a first byte alone
66 ; a first byte alone
66 89 ; no ModRM
F4 ; HLT
89 ; no ModRM
8B 04 ; no SIB
8B 44 24 ; no displacement
8B 05 01 02 03 ; a displacement cut off
8B 84 88 01 02 03 ; a displacement cut off
81 C0 FF FF FF ; a number cut off
83 C0 ; no number
C1 E0 ; no number
B8 01 00 ; a number cut off
E9 00 00 00 ; a distance cut off
74 ; no distance
0F 84 00 00 00 ; a distance cut off
CD ; no number
11 C0 ; ADC
83 D8 01 ; SBB
C1 C0 04 ; ROL
F7 C0 01 00 00 00 ; TEST with a number
8D C0 ; LEA of a register
FF C0 ; INC
";
