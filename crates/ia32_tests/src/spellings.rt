//! The bytes of instructions. They are those that GNU as gives for the text behind the semicolon. They are decoded
//! first, which shows that the instruction has a spelling.

use crate::decoding::expect_rows;

/// Every form of a memory operand, with displacements about the bounds of a byte.
const MEMORY_OPERANDS: &str = "\
89 0B => Mov(Mem(Mem { base: Some(Ebx), index: None, disp: 0 }), Ecx) ; mov dword ptr [ebx], ecx
89 4B 08 => Mov(Mem(Mem { base: Some(Ebx), index: None, disp: 8 }), Ecx) ; mov dword ptr [ebx+8], ecx
89 4B 80 => Mov(Mem(Mem { base: Some(Ebx), index: None, disp: -128 }), Ecx) ; mov dword ptr [ebx-128], ecx
89 4B 7F => Mov(Mem(Mem { base: Some(Ebx), index: None, disp: 127 }), Ecx) ; mov dword ptr [ebx+127], ecx
89 8B 80 00 00 00 => Mov(Mem(Mem { base: Some(Ebx), index: None, disp: 128 }), Ecx) ; mov dword ptr [ebx+128], ecx
89 8B C8 00 00 00 => Mov(Mem(Mem { base: Some(Ebx), index: None, disp: 200 }), Ecx) ; mov dword ptr [ebx+200], ecx
89 8B 7F FF FF FF => Mov(Mem(Mem { base: Some(Ebx), index: None, disp: -129 }), Ecx) ; mov dword ptr [ebx-129], ecx
89 4D 00 => Mov(Mem(Mem { base: Some(Ebp), index: None, disp: 0 }), Ecx) ; mov dword ptr [ebp], ecx
89 4D F8 => Mov(Mem(Mem { base: Some(Ebp), index: None, disp: -8 }), Ecx) ; mov dword ptr [ebp-8], ecx
89 8D 18 FC FF FF => Mov(Mem(Mem { base: Some(Ebp), index: None, disp: -1000 }), Ecx) ; mov dword ptr [ebp-1000], ecx
89 0C 24 => Mov(Mem(Mem { base: Some(Esp), index: None, disp: 0 }), Ecx) ; mov dword ptr [esp], ecx
89 4C 24 04 => Mov(Mem(Mem { base: Some(Esp), index: None, disp: 4 }), Ecx) ; mov dword ptr [esp+4], ecx
89 8C 24 00 02 00 00 => Mov(Mem(Mem { base: Some(Esp), index: None, disp: 512 }), Ecx) ; mov dword ptr [esp+512], ecx
89 8E FF FF FF 7F => \
    Mov(Mem(Mem { base: Some(Esi), index: None, disp: 2147483647 }), Ecx) ; mov dword ptr [esi+2147483647], ecx
89 0C 0B => Mov(Mem(Mem { base: Some(Ebx), index: Some((Ecx, 1)), disp: 0 }), Ecx) ; mov dword ptr [ebx+ecx*1], ecx
89 0C 70 => Mov(Mem(Mem { base: Some(Eax), index: Some((Esi, 2)), disp: 0 }), Ecx) ; mov dword ptr [eax+esi*2], ecx
89 4C 97 10 => \
    Mov(Mem(Mem { base: Some(Edi), index: Some((Edx, 4)), disp: 16 }), Ecx) ; mov dword ptr [edi+edx*4+16], ecx
89 0C EC => Mov(Mem(Mem { base: Some(Esp), index: Some((Ebp, 8)), disp: 0 }), Ecx) ; mov dword ptr [esp+ebp*8], ecx
89 4C 85 00 => Mov(Mem(Mem { base: Some(Ebp), index: Some((Eax, 4)), disp: 0 }), Ecx) ; mov dword ptr [ebp+eax*4], ecx
89 8C FD D4 FE FF FF => \
    Mov(Mem(Mem { base: Some(Ebp), index: Some((Edi, 8)), disp: -300 }), Ecx) ; mov dword ptr [ebp+edi*8-300], ecx
89 0C 8D 00 00 00 00 => Mov(Mem(Mem { base: None, index: Some((Ecx, 4)), disp: 0 }), Ecx) ; mov dword ptr [ecx*4], ecx
89 0C ED 78 56 34 12 => \
    Mov(Mem(Mem { base: None, index: Some((Ebp, 8)), disp: 305419896 }), Ecx) ; mov dword ptr [ebp*8+305419896], ecx
89 0D 00 80 04 08 => Mov(Mem(Mem { base: None, index: None, disp: 134512640 }), Ecx) ; mov dword ptr [134512640], ecx
";

/// Moves of every width, exchanges and LEA.
const MOVES: &str = "\
89 C3 => Mov(Reg(Ebx), Eax) ; mov ebx, eax
89 FC => Mov(Reg(Esp), Edi) ; mov esp, edi
8B 53 08 => MovLoad(Edx, Mem { base: Some(Ebx), index: None, disp: 8 }) ; mov edx, dword ptr [ebx+8]
8B 53 80 => MovLoad(Edx, Mem { base: Some(Ebx), index: None, disp: -128 }) ; mov edx, dword ptr [ebx-128]
8B 53 7F => MovLoad(Edx, Mem { base: Some(Ebx), index: None, disp: 127 }) ; mov edx, dword ptr [ebx+127]
BE 01 00 00 00 => MovImm(Reg(Esi), 1) ; mov esi, 1
B8 FF FF FF FF => MovImm(Reg(Eax), -1) ; mov eax, -1
C7 45 F4 78 56 34 12 => \
    MovImm(Mem(Mem { base: Some(Ebp), index: None, disp: -12 }), 305419896) ; mov dword ptr [ebp-12], 305419896
88 DC => Mov8(Reg(Ah), Bl) ; mov ah, bl
88 74 07 01 => Mov8(Mem(Mem { base: Some(Edi), index: Some((Eax, 1)), disp: 1 }), Dh) ; mov byte ptr [edi+eax*1+1], dh
8A 2E => Mov8Load(Ch, Mem { base: Some(Esi), index: None, disp: 0 }) ; mov ch, byte ptr [esi]
B7 C8 => Mov8Imm(Bh, 200) ; mov bh, 200
66 89 53 02 => Mov16(Mem(Mem { base: Some(Ebx), index: None, disp: 2 }), Edx) ; mov word ptr [ebx+2], dx
66 89 F5 => Mov16(Reg(Ebp), Esi) ; mov bp, si
0F B6 C2 => MovZx8(Eax, Reg(Dl)) ; movzx eax, dl
0F B6 7D FF => MovZx8(Edi, Mem(Mem { base: Some(Ebp), index: None, disp: -1 })) ; movzx edi, byte ptr [ebp-1]
0F B6 45 EC => MovZx8(Eax, Mem(Mem { base: Some(Ebp), index: None, disp: -20 })) ; movzx eax, byte ptr [ebp-20]
0F B7 CC => MovZx16(Ecx, Reg(Esp)) ; movzx ecx, sp
0F B7 0C 40 => \
    MovZx16(Ecx, Mem(Mem { base: Some(Eax), index: Some((Eax, 2)), disp: 0 })) ; movzx ecx, word ptr [eax+eax*2]
0F BE DC => MovSx8(Ebx, Reg(Ah)) ; movsx ebx, ah
0F BE 74 24 03 => MovSx8(Esi, Mem(Mem { base: Some(Esp), index: None, disp: 3 })) ; movsx esi, byte ptr [esp+3]
0F BF D7 => MovSx16(Edx, Reg(Edi)) ; movsx edx, di
0F BF 55 EC => MovSx16(Edx, Mem(Mem { base: Some(Ebp), index: None, disp: -20 })) ; movsx edx, word ptr [ebp-20]
0F BF 12 => MovSx16(Edx, Mem(Mem { base: Some(Edx), index: None, disp: 0 })) ; movsx edx, word ptr [edx]
86 F1 => Xchg8(Reg(Cl), Dh) ; xchg cl, dh
86 01 => Xchg8(Mem(Mem { base: Some(Ecx), index: None, disp: 0 }), Al) ; xchg byte ptr [ecx], al
87 D1 => Xchg(Reg(Ecx), Edx) ; xchg ecx, edx
87 45 08 => Xchg(Mem(Mem { base: Some(Ebp), index: None, disp: 8 }), Eax) ; xchg dword ptr [ebp+8], eax
8D 44 9B F9 => Lea(Eax, Mem { base: Some(Ebx), index: Some((Ebx, 4)), disp: -7 }) ; lea eax, [ebx+ebx*4-7]
8D 64 24 C0 => Lea(Esp, Mem { base: Some(Esp), index: None, disp: -64 }) ; lea esp, [esp-64]
";

/// Arithmetic and logic on words, with numbers about the bounds of a byte.
const ARITHMETIC: &str = "\
01 F1 => Alu(Add, Reg(Ecx), Esi) ; add ecx, esi
01 47 FC => Alu(Add, Mem(Mem { base: Some(Edi), index: None, disp: -4 }), Eax) ; add dword ptr [edi-4], eax
03 6C 24 14 => AluLoad(Add, Ebp, Mem { base: Some(Esp), index: None, disp: 20 }) ; add ebp, dword ptr [esp+20]
83 C2 64 => AluImm(Add, Reg(Edx), 100) ; add edx, 100
81 C2 7F FF FF FF => AluImm(Add, Reg(Edx), -129) ; add edx, -129
09 F1 => Alu(Or, Reg(Ecx), Esi) ; or ecx, esi
0B 6C 24 14 => AluLoad(Or, Ebp, Mem { base: Some(Esp), index: None, disp: 20 }) ; or ebp, dword ptr [esp+20]
83 CA 64 => AluImm(Or, Reg(Edx), 100) ; or edx, 100
21 F1 => Alu(And, Reg(Ecx), Esi) ; and ecx, esi
23 6C 24 14 => AluLoad(And, Ebp, Mem { base: Some(Esp), index: None, disp: 20 }) ; and ebp, dword ptr [esp+20]
83 E2 64 => AluImm(And, Reg(Edx), 100) ; and edx, 100
29 F1 => Alu(Sub, Reg(Ecx), Esi) ; sub ecx, esi
29 47 FC => Alu(Sub, Mem(Mem { base: Some(Edi), index: None, disp: -4 }), Eax) ; sub dword ptr [edi-4], eax
2B 6C 24 14 => AluLoad(Sub, Ebp, Mem { base: Some(Esp), index: None, disp: 20 }) ; sub ebp, dword ptr [esp+20]
83 EA 64 => AluImm(Sub, Reg(Edx), 100) ; sub edx, 100
31 F1 => Alu(Xor, Reg(Ecx), Esi) ; xor ecx, esi
31 D2 => Alu(Xor, Reg(Edx), Edx) ; xor edx, edx
33 6C 24 14 => AluLoad(Xor, Ebp, Mem { base: Some(Esp), index: None, disp: 20 }) ; xor ebp, dword ptr [esp+20]
83 F2 64 => AluImm(Xor, Reg(Edx), 100) ; xor edx, 100
39 F1 => Alu(Cmp, Reg(Ecx), Esi) ; cmp ecx, esi
3B 6C 24 14 => AluLoad(Cmp, Ebp, Mem { base: Some(Esp), index: None, disp: 20 }) ; cmp ebp, dword ptr [esp+20]
83 FA 64 => AluImm(Cmp, Reg(Edx), 100) ; cmp edx, 100
81 FA 7F FF FF FF => AluImm(Cmp, Reg(Edx), -129) ; cmp edx, -129
83 C0 FF => AluImm(Add, Reg(Eax), -1) ; add eax, -1
81 C2 80 00 00 00 => AluImm(Add, Reg(Edx), 128) ; add edx, 128
83 EC 80 => AluImm(Sub, Reg(Esp), -128) ; sub esp, -128
81 BC 7C E8 03 00 00 70 11 01 00 => \
    AluImm(Cmp, Mem(Mem { base: Some(Esp), index: Some((Edi, 2)), disp: 1000 }), 70000) ; \
    cmp dword ptr [esp+edi*2+1000], 70000
";

/// Tests, products, quotients, shifts, the stack, calls, jumps, conditions and the rest.
const OTHERS: &str = "\
85 F6 => Test(Reg(Esi), Esi) ; test esi, esi
85 08 => Test(Mem(Mem { base: Some(Eax), index: None, disp: 0 }), Ecx) ; test dword ptr [eax], ecx
0F AF C7 => IMul(Eax, Reg(Edi)) ; imul eax, edi
0F AF 6D 00 => IMul(Ebp, Mem(Mem { base: Some(Ebp), index: None, disp: 0 })) ; imul ebp, dword ptr [ebp]
F7 D3 => Not(Reg(Ebx)) ; not ebx
F7 DB => Neg(Reg(Ebx)) ; neg ebx
F7 F3 => Div(Reg(Ebx)) ; div ebx
F7 75 EC => Div(Mem(Mem { base: Some(Ebp), index: None, disp: -20 })) ; div dword ptr [ebp-20]
F7 FB => IDiv(Reg(Ebx)) ; idiv ebx
F7 7C F1 40 => IDiv(Mem(Mem { base: Some(Ecx), index: Some((Esi, 8)), disp: 64 })) ; idiv dword ptr [ecx+esi*8+64]
99 => Cdq ; cdq
D3 E0 => ShiftCl(Shl, Reg(Eax)) ; shl eax, cl
C1 E6 1F => ShiftImm(Shl, Reg(Esi), 31) ; shl esi, 31
D3 E8 => ShiftCl(Shr, Reg(Eax)) ; shr eax, cl
C1 EE 1F => ShiftImm(Shr, Reg(Esi), 31) ; shr esi, 31
D3 F8 => ShiftCl(Sar, Reg(Eax)) ; sar eax, cl
C1 FE 1F => ShiftImm(Sar, Reg(Esi), 31) ; sar esi, 31
C1 BD 38 FF FF FF 05 => \
    ShiftImm(Sar, Mem(Mem { base: Some(Ebp), index: None, disp: -200 }), 5) ; sar dword ptr [ebp-200], 5
55 => Push(Reg(Ebp)) ; push ebp
FF 70 04 => Push(Mem(Mem { base: Some(Eax), index: None, disp: 4 })) ; push dword ptr [eax+4]
68 78 56 34 12 => PushImm(305419896) ; push 305419896
5F => Pop(Edi) ; pop edi
E8 00 10 00 00 => Call(4096) ; call .+4101
C3 => Ret ; ret
C9 => Leave ; leave
E9 00 F0 FF FF => Jmp(-4096) ; jmp .-4091
0F 80 2C 01 00 00 => Jcc(O, 300) ; jo .+306
0F 82 2C 01 00 00 => Jcc(B, 300) ; jb .+306
0F 83 2C 01 00 00 => Jcc(Ae, 300) ; jae .+306
0F 84 2C 01 00 00 => Jcc(E, 300) ; je .+306
0F 85 2C 01 00 00 => Jcc(Ne, 300) ; jne .+306
0F 8A 2C 01 00 00 => Jcc(P, 300) ; jp .+306
0F 8D 2C 01 00 00 => Jcc(Ge, 300) ; jge .+306
0F 8F 2C 01 00 00 => Jcc(G, 300) ; jg .+306
0F 91 C2 => SetCc(No, Reg(Dl)) ; setno dl
0F 92 C0 => SetCc(B, Reg(Al)) ; setb al
0F 93 C2 => SetCc(Ae, Reg(Dl)) ; setae dl
0F 98 C2 => SetCc(S, Reg(Dl)) ; sets dl
0F 9E C2 => SetCc(Le, Reg(Dl)) ; setle dl
0F 9C 46 01 => SetCc(L, Mem(Mem { base: Some(Esi), index: None, disp: 1 })) ; setl byte ptr [esi+1]
CD 80 => Int(128) ; int 0x80
0F 0B => Ud2 ; ud2
90 => Nop ; nop
";

#[test]
fn bytes_of_instructions(rt: HostRuntime) {
    let alloc = rt.alloc();
    expect_rows(&rt, alloc, MEMORY_OPERANDS, 23, true);
    expect_rows(&rt, alloc, MOVES, 30, true);
    expect_rows(&rt, alloc, ARITHMETIC, 27, true);
    expect_rows(&rt, alloc, OTHERS, 43, true);
}
